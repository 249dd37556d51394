//! One text that is written piece by piece.
ghost use Rattle.std.specs.Prelude.{◌≡◌, ◌≤◌, ◌<◌, ◌^◌, ◌+◌, ◌++◌, ◌∷◌, [], IfOk, IsOk, Some, length};
ghost use Rattle.parts_io.specs.Bytes.{WritesAll};
ghost use Rattle.parts_io.specs.Causes.{HasCause};

use parts_io::{Failed, Sink};
use std::alloc::{AllocError, Global};
use std::marker::Model;

/// A text that is written piece by piece, in a room of bytes that is taken at once. No call but `open` takes memory.
#[derive(Drop)]
pub struct NextText {
    text: Vec<u8>,
    room: usize,
    faults: u64,
}

impl Model for NextText {
    ghost use Rattle.std.specs.Prelude.{◌≡◌, ◌≤◌, ◌<◌, length, vec_capacity};
    ghost use Rattle.parts_texts.specs.Texts.{Next};

    ghost Value = { Next };

    ghost view = { λ t. record { text = t.text.items; room = t.room; faults = t.faults } };

    ghost invariant = { λ t. (length t.text.items ≤ t.room) × (t.room ≤ vec_capacity t.text) × (0 < t.faults → length t.text.items ≡ t.room) };
}

impl NextText {
    /// An empty text, with room for so many bytes.
    pub fn open(alloc: Global, room: usize) -> Result<NextText, AllocError>
        requires { room < 2 ^ 40 }
        ensures { IfOk result (λ t. t ≡ record { text = []; room = room; faults = 0 }) }
    {
        Ok(NextText {
            text: Vec::with_capacity(alloc, room)?,
            room,
            faults: 0,
        })
    }

    /// All that was written since it was empty.
    pub fn text(&self) -> &[u8]
        ensures { result.now ≡ self.now.text }
    {
        self.text.as_slice()
    }

    /// Empty again, as where no write has failed.
    pub fn clear(&mut self)
        ensures { self.new ≡ record self.old { text = []; faults = 0 } }
    {
        self.text.clear();
        self.faults = 0;
    }

    /// It is this text from here on, as where no write has failed.
    pub fn set(&mut self, text: &[u8])
        requires { length text.now ≤ self.old.room }
        ensures { self.new ≡ record self.old { text = text.now; faults = 0 } }
    {
        self.clear();
        self.text.extend_from_slice(text).unwrap();
    }

    // Appends the bytes for which there is room, and fails.
    #[inline(never)]
    fn write_part(&mut self, bytes: &[u8]) -> Result<(), Failed>
        requires { self.old.room < length self.old.text + length bytes.now }
        ensures written { WritesAll (Some (self.old.room ∷ self.old.text)) (Some (self.new.room ∷ self.new.text)) result bytes.now }
        ensures cause { HasCause self.old.faults self.new.faults result }
    {
        let left = self.room - self.text.len();
        self.text.extend_from_slice(&bytes[..left]).unwrap();
        self.faults = self.faults.saturating_add(1);
        Err(Failed)
    }

    /// Costs nothing when it runs: where a write has failed the room is used up.
    pub fn know_use(&self)
        ensures { 0 < self.now.faults → length self.now.text ≡ self.now.room }
    {
        let _ = &self.text;
    }
}

impl Sink for NextText {
    ghost use Rattle.parts_io.specs.Bytes.{WritesAll};
    ghost use Rattle.parts_io.specs.Causes.{HasCause};

    // its room, and then its text, so that each caller knows that the room stays
    ghost text = { λ t. Some (t.room ∷ t.text) };

    ghost faults = { λ t. t.faults };

    /// Appends the bytes. Fails where there is no room for all of them, and then appends those for which there is.
    fn write(&mut self, bytes: &[u8]) -> Result<(), Failed>
        ensures written { WritesAll (Some (self.old.room ∷ self.old.text)) (Some (self.new.room ∷ self.new.text)) result bytes.now }
        ensures cause { HasCause self.old.faults self.new.faults result }

        ensures roomy { length self.old.text + length bytes.now ≤ self.old.room → IsOk result }
    {
        if bytes.len() > self.room - self.text.len() {
            return self.write_part(bytes);
        }
        self.text.extend_from_slice(bytes).unwrap();
        Ok(())
    }
}
