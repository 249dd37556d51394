//! A sink that holds what fits.
ghost use Rattle.std.specs.Prelude.{◌≡◌, ◌≤◌, ◌<◌, ◌^◌, ◌+◌, ◌-◌, ◌++◌, ◌⊎◌, [], length, IfOk, Some, is_ok};
ghost use Rattle.parts_io.specs.Causes.{raised};

use parts_io::{Failed, Sink};
use std::alloc::{AllocError, Global};
use std::marker::Model;

/// A text in memory of a bounded length. A write that does not fit whole leaves the part that fits. No write takes memory.
///
/// It is seen as its text, its room in bytes, and how many writes did not fit.
#[derive(Drop)]
pub struct Limited {
    text: Vec<u8>,
    room: u64,
    faults: u64,
}

impl Model for Limited {
    ghost use Rattle.std.specs.Prelude.{◌≡◌, ◌≤◌, ◌⊎◌, length, vec_capacity};
    ghost use Rattle.tool_check.specs.Held.{Held};

    ghost Value = { Held };

    ghost view = { λ s. record { text = s.text.items; room = s.room; faults = s.faults } };

    ghost invariant = { λ s. (length s.text.items ≤ s.room) × (s.room ≤ vec_capacity s.text)
        × ((s.faults ≡ 0) ⊎ (length s.text.items ≡ s.room)) };
}

impl Limited {
    /// An empty text with room for `cap` bytes, which are allocated at once.
    pub fn open(alloc: Global, cap: u64) -> Result<Limited, AllocError>
        requires { cap < 2 ^ 40 }
        ensures { IfOk result (λ sink. sink ≡ record { text = []; room = cap; faults = 0 }) }
    {
        Ok(Limited {
            text: Vec::with_capacity(alloc, cap as usize)?,
            room: cap,
            faults: 0,
        })
    }

    /// What is held: where a write has failed, as many bytes as there is room for.
    pub fn text(&self) -> &[u8]
        ensures value { result.now ≡ self.now.text }
        ensures full { (self.now.faults ≡ 0) ⊎ (length result.now ≡ self.now.room) }
    {
        self.text.as_slice()
    }

    // How many bytes still fit.
    fn left(&self) -> u64
        ensures left { result ≡ self.now.room - length self.now.text }
        ensures within { length self.now.text ≤ self.now.room }
    {
        self.room - self.text.len() as u64
    }

    // Appends bytes that fit.
    fn append(&mut self, bytes: &[u8])
        requires { length self.old.text + length bytes.now ≤ self.old.room }
        ensures { self.new ≡ record {
          text = self.old.text ++ bytes.now;
          room = self.old.room;
          faults = self.old.faults;
        } }
    {
        self.text.extend_from_slice(bytes).unwrap();
    }

    // Counts a write that did not fit.
    fn count_fault(&mut self)
        requires { length self.old.text ≡ self.old.room }
        ensures state { self.new ≡ record {
          text = self.old.text;
          room = self.old.room;
          faults = raised self.old.faults 1;
        } }
        ensures later { self.old.faults ≤ self.new.faults }
    {
        self.faults = self.faults.saturating_add(1);
    }
}

impl Sink for Limited {
    ghost use Rattle.parts_io.specs.Bytes.{WritesAll};
    ghost use Rattle.parts_io.specs.Causes.{HasCause};
    ghost use Rattle.tool_check.specs.Held.{after_write, fits};

    ghost text = { λ s. Some s.text };

    ghost faults = { λ s. s.faults };

    #[tactic(auto, using(crate::proofs::Held::held_all, crate::proofs::Held::held_part))]
    /// Fails exactly where the text would be longer than its room, and then holds as many bytes as it has room for.
    fn write(&mut self, bytes: &[u8]) -> Result<(), Failed>
        ensures written { WritesAll (Some self.old.text) (Some self.new.text) result bytes.now }
        ensures cause { HasCause self.old.faults self.new.faults result }

        ensures taken { is_ok result ≡ fits self.old bytes.now }
        ensures state { self.new ≡ after_write self.old bytes.now }
    {
        let left = self.left();
        if bytes.len() as u64 <= left {
            self.append(bytes);
            return Ok(());
        }
        self.append(&bytes[..left as usize]);
        self.count_fault();
        Err(Failed)
    }
}
