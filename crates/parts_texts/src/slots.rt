//! Texts in rooms of their own.
ghost use Rattle.std.specs.Prelude.{◌≡◌, ◌<◌, ◌≤◌, ◌^◌, [], IfOk, length, slice_index_or, slice_set};
ghost use Rattle.parts_texts.specs.Slots.{no_texts};

use crate::next::NextText;
use std::alloc::{AllocError, Global};
use std::marker::Model;

/// Texts by number, each in a room of its own that is as large as the others. No call but `open` takes memory.
#[derive(Drop)]
pub struct Slots {
    items: Vec<NextText>,
    room: usize,
}

impl Model for Slots {
    ghost use Rattle.std.specs.Prelude.{map};
    ghost use Rattle.parts_texts.specs.Slots.{HaveRoomsOf, Held, text_in};

    ghost Value = { Held };

    ghost view = { λ s. record { texts = map text_in s.items.items; room = s.room } };

    ghost invariant = { λ s. HaveRoomsOf s.room s.items.items };
}

impl Slots {
    /// So many empty texts, each in a room of so many bytes. All rooms are taken at once.
    pub fn open(alloc: Global, count: usize, room: usize) -> Result<Slots, AllocError>
        requires few { count < 2 ^ 32 }
        requires small { room < 2 ^ 40 }
        ensures { IfOk result (λ s. s ≡ record { texts = no_texts count; room = room }) }
    {
        let mut items = Vec::with_capacity(alloc, count)?;
        for _ in 0..count {
            items.push(NextText::open(alloc, room)?)?;
        }
        Ok(Slots { items, room })
    }

    /// How many texts there are.
    pub fn count(&self) -> usize
        ensures { result ≡ length self.now.texts }
    {
        self.items.len()
    }

    /// The text with this number, from 0 on.
    pub fn text(&self, number: usize) -> &[u8]
        requires { number < length self.now.texts }
        ensures { result.now ≡ slice_index_or self.now.texts number [] }
    {
        self.items[number].text()
    }

    /// Puts a text in the place of that with this number.
    pub fn put(&mut self, number: usize, text: &[u8])
        requires known { number < length self.old.texts }
        requires fits { length text.now ≤ self.old.room }
        ensures { self.new ≡ record self.old { texts = slice_set self.old.texts number text.now } }
    {
        self.items[number].set(text);
    }

    /// How many bytes each text has room for.
    pub fn room(&self) -> usize
        ensures { result ≡ self.now.room }
    {
        self.room
    }
}
