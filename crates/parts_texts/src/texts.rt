//! A list of texts.
ghost use Rattle.std.specs.Prelude.{◌≡◌, ◌≤◌, ◌<◌, ◌^◌, ◌++◌, ◌∷◌, [], IfOk, false, length, slice_index_or, true};
ghost use Rattle.parts_texts.specs.Texts.{HasRoom};

use std::alloc::{AllocError, Global};
use std::marker::Model;

/// Texts one behind the other. No call but `open` takes memory.
#[derive(Drop)]
pub struct Texts {
    bytes: Vec<u8>,
    // where each text ends, of which the first begins at 0
    ends: Vec<usize>,
    room: usize,
    most: usize,
    is_full: bool,
}

impl Model for Texts {
    ghost use Rattle.std.specs.Prelude.{◌≡◌, ◌≤◌, length, vec_capacity};
    ghost use Rattle.parts_texts.specs.Texts.{Rise, Told, last_end, texts_from};

    ghost Value = { Told };

    ghost view = { λ t. record {
      texts = texts_from 0 t.ends.items t.bytes.items;
      room = t.room;
      most = t.most;
      is_full = t.is_full;
    } };

    ghost invariant = { λ t. Rise 0 t.ends.items (length t.bytes.items)
        × (last_end 0 t.ends.items ≡ length t.bytes.items)
        × (length t.bytes.items ≤ t.room) × (t.room ≤ vec_capacity t.bytes)
        × (length t.ends.items ≤ t.most) × (t.most ≤ vec_capacity t.ends) };
}

// Where the text with this number begins.
fn start_of(ends: &[usize], number: usize) -> usize
    requires { number ≤ length ends.now }
    ensures { result ≡ slice_index_or (0 ∷ ends.now) number 0 }
{
    if number == 0 {
        return 0;
    }
    ends[number - 1]
}

// Where it ends.
fn end_of(ends: &[usize], number: usize) -> usize
    requires { number < length ends.now }
    ensures { result ≡ slice_index_or ends.now number 0 }
{
    ends[number]
}

impl Texts {
    /// No text, with room for so many texts, and for so many bytes of all of them. Both rooms are taken at once.
    pub fn open(alloc: Global, most: usize, room: usize) -> Result<Texts, AllocError>
        requires few { most < 2 ^ 32 }
        requires small { room < 2 ^ 40 }
        ensures { IfOk result (λ t. t ≡ record { texts = []; room = room; most = most; is_full = false }) }
    {
        Ok(Texts {
            bytes: Vec::with_capacity(alloc, room)?,
            ends: Vec::with_capacity(alloc, most)?,
            room,
            most,
            is_full: false,
        })
    }

    /// How many texts there are.
    #[tactic(auto, using(crate::proofs::Pieces::count_is))]
    pub fn count(&self) -> usize
        ensures { result ≡ length self.now.texts }
    {
        self.ends.len()
    }

    /// Whether there was no room for a text that came.
    pub fn is_full(&self) -> bool
        ensures { result ≡ self.now.is_full }
    {
        self.is_full
    }

    /// The text with this number, from 0 on.
    #[tactic(auto, using(crate::proofs::Pieces::count_is, crate::proofs::Pieces::text_at, crate::proofs::Pieces::part_fits, crate::proofs::Pieces::part_rises))]
    pub fn text(&self, number: usize) -> &[u8]
        requires { number < length self.now.texts }
        ensures { result.now ≡ slice_index_or self.now.texts number [] }
    {
        let start = start_of(&self.ends, number);
        let end = end_of(&self.ends, number);
        &self.bytes[start..end]
    }

    /// Puts a text behind the others. Where there is no room the list is full from then on.
    #[tactic(auto, using(crate::proofs::Pieces::count_is, crate::proofs::Pieces::rise_pushed, crate::proofs::Pieces::last_is, crate::proofs::Pieces::pushed_is, crate::proofs::Pieces::all_used))]
    pub fn push(&mut self, text: &[u8])
        ensures before { self.new.is_full ≡ false → self.old.is_full ≡ false }
        ensures pushed { self.new.is_full ≡ false → self.new ≡ record self.old { texts = self.old.texts ++ text.now ∷ [] } }
        ensures roomy { HasRoom self.old (length text.now) → self.new.is_full ≡ false }
    {
        if text.len() > self.room - self.bytes.len() || self.ends.len() >= self.most {
            self.is_full = true;
            return;
        }
        self.bytes.extend_from_slice(text).unwrap();
        self.ends.push(self.bytes.len()).unwrap();
    }

    /// The list is full from now on, as where a text comes that was not written whole.
    pub fn close(&mut self)
        ensures { self.new ≡ record self.old { is_full = true } }
    {
        self.is_full = true;
    }

    /// No text is left.
    pub fn clear(&mut self)
        ensures { self.new ≡ record self.old { texts = [] } }
    {
        self.ends.clear();
        self.bytes.clear();
    }
}
