//! Bytes that are held back, to be sent on together.
ghost use Rattle.std.specs.Prelude.{◌≡◌, ◌≤◌, ◌++◌, [], drop, false, length, IfErr, IfOk, IsTrue};

use crate::{LINE_ROOM, Line};
use parts_bytes::place_bytes;
use std::alloc::{AllocError, Global};
use std::marker::Model;

// A buffer that never grows, whose bytes from `start` to `end` are held. It is seen as these bytes.
#[derive(Drop)]
pub(crate) struct Held {
    bytes: Vec<u8>,
    start: usize,
    end: usize,
}

impl Model for Held {
    ghost use Rattle.std.specs.Prelude.{List, ℕ, ◌≤◌, length, slice_range};

    ghost Value = { List ℕ };

    ghost view = { λ h. slice_range h.bytes.items h.start h.end };

    ghost invariant = { λ h. (h.start ≤ h.end) × (h.end ≤ length h.bytes.items) };
}

impl Held {
    // Holds nothing yet, with room for so many bytes.
    pub(crate) fn open(alloc: Global, room: usize) -> Result<Held, AllocError>
        ensures { IfOk result (λ held. held ≡ []) }
    {
        Ok(Held {
            bytes: vec![in alloc; 0; room]?,
            start: 0,
            end: 0,
        })
    }

    // Holds these bytes too, where there is room behind the held ones, and answers whether there is.
    #[inline(always)]
    pub(crate) fn put(&mut self, bytes: &[u8]) -> bool
        ensures taken { IsTrue result → self.new ≡ self.old ++ bytes.now }
        ensures kept { result ≡ false → self.new ≡ self.old }
    {
        if bytes.len() > self.bytes.len() - self.end {
            return false;
        }
        self.end = place_bytes(self.bytes.as_mut_slice(), self.end, bytes);
        true
    }

    // Holds a line too, which is made behind the held bytes. Where there is no room for any line it is given back.
    #[inline(always)]
    pub(crate) fn put_line<L: Line>(&mut self, line: L) -> Result<(), L>
        ensures taken { IfOk result (λ _. self.new ≡ self.old ++ L.bytes line) }
        ensures short { IfOk result (λ _. length (L.bytes line) ≤ 256) }
        ensures kept { IfErr result (λ back. (back ≡ line) × (self.new ≡ self.old)) }
    {
        if self.bytes.len() - self.end < LINE_ROOM {
            return Err(line);
        }
        self.end = line.place(self.bytes.as_mut_slice(), self.end);
        Ok(())
    }

    // What is held.
    pub(crate) fn bytes(&self) -> &[u8]
        ensures { result.now ≡ self.now }
    {
        &self.bytes[self.start..self.end]
    }

    // Holds the first `count` bytes no longer. Where none is left, the whole room is free again.
    pub(crate) fn let_go(&mut self, count: usize)
        requires { count ≤ length self.old }
        ensures { self.new ≡ drop count self.old }
    {
        if count < self.end - self.start {
            self.start += count;
        } else {
            self.start = 0;
            self.end = 0;
        }
    }
}
