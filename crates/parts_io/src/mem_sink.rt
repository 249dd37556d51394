//! A sink in memory.
ghost use Rattle.std.specs.Prelude.{◌≡◌, ◌≤◌, ◌<◌, ◌^◌, ◌+◌, [], length, IfOk, IsOk, Some, is_ok, nat_le};

use crate::{Failed, Sink};
use std::alloc::{AllocError, Global};
use std::marker::Model;

/// A text in memory of a bounded length, some of whose writes fail. No write takes memory.
///
/// It is seen as its text, its room in bytes, the numbers of the writes that fail, and two counts.
#[derive(Drop)]
pub struct MemSink {
    text: Vec<u8>,
    room: u64,
    fails: Vec<u64>,
    calls: u64,
    faults: u64,
}

impl Model for MemSink {
    ghost use Rattle.std.specs.Prelude.{◌≤◌, length, vec_capacity};
    ghost use Rattle.parts_io.specs.Memory.{Store};

    ghost Value = { Store };

    ghost view = { λ s. record {
      text = s.text.items;
      room = s.room;
      fails = s.fails.items;
      calls = s.calls;
      faults = s.faults;
    } };

    ghost invariant = { λ s. (length s.text.items ≤ s.room) × (s.room ≤ vec_capacity s.text) };
}

impl MemSink {
    /// An empty text with room for `room` bytes, which are allocated at once. The writes with the numbers in `fails`
    /// fail; the first write has the number 1.
    pub fn open(alloc: Global, room: u64, fails: Vec<u64>) -> Result<MemSink, AllocError>
        requires { room < 2 ^ 40 }
        ensures { IfOk result (λ sink. sink ≡ record {
          text = [];
          room = room;
          fails = fails.items;
          calls = 0;
          faults = 0;
        }) }
    {
        Ok(MemSink {
            text: Vec::with_capacity(alloc, room as usize)?,
            room,
            fails,
            calls: 0,
            faults: 0,
        })
    }

    /// All that was written.
    pub fn text(&self) -> &[u8]
        ensures { result.now ≡ self.now.text }
    {
        self.text.as_slice()
    }

    // Whether the bytes still fit.
    fn has_room(&self, bytes: &[u8]) -> bool
        ensures { result ≡ nat_le (length self.now.text + length bytes.now) self.now.room }
    {
        bytes.len() as u64 <= self.room - self.text.len() as u64
    }
}

impl Sink for MemSink {
    ghost use Rattle.parts_io.specs.Bytes.{WritesAll};
    ghost use Rattle.parts_io.specs.Causes.{HasCause};
    ghost use Rattle.parts_io.specs.Memory.{after_write, is_taken};

    ghost text = { λ s. Some s.text };

    ghost faults = { λ s. s.faults };

    /// Fails exactly where the number of this write stands among the failing ones or the text would be longer than its
    /// room, and then appends nothing.
    fn write(&mut self, bytes: &[u8]) -> Result<(), Failed>
        ensures written { WritesAll (Some self.old.text) (Some self.new.text) result bytes.now }
        ensures cause { HasCause self.old.faults self.new.faults result }

        ensures taken { is_ok result ≡ is_taken self.old bytes.now }
        ensures state { self.new ≡ after_write self.old bytes.now }
        ensures roomy { self.old.fails ≡ [] → length self.old.text + length bytes.now ≤ self.old.room → IsOk result }
    {
        self.calls = self.calls.saturating_add(1);
        if self.fails.contains(&self.calls) || !self.has_room(bytes) {
            self.faults = self.faults.saturating_add(1);
            return Err(Failed);
        }
        self.text.extend_from_slice(bytes).unwrap();
        Ok(())
    }
}
