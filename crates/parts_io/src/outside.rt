//! The outside as the project sees it.
ghost use Rattle.std.specs.Prelude.{◌≡◌, ◌≤◌, List, ℕ, Option, None, IsTrue, MatchResult, false, length};
ghost use Rattle.std.specs.Io.{ReadsAtMost};
ghost use Rattle.std.specs.Io.KnownBytes.{Appends, ReadConsumes};
ghost use Rattle.parts_io.specs.Causes.{GrewBy, HasCause};
ghost use Rattle.parts_io.specs.Bytes.{WritesAll};

use crate::{LINE_ROOM, Line};
use std::error::Error;
use std::fmt;

/// The outside did not do what was asked of it.
#[derive(Clone, Copy, Debug, PartialEq, Eq)]
pub struct Failed;

impl fmt::Display for Failed {
    ghost use Rattle.std.specs.Prelude.{Some, codes};

    ghost output = { λ _. Some (codes "a read or a write failed") };

    fn fmt<W: fmt::Write>(&self, f: &mut fmt::Formatter<W>) -> fmt::Result {
        f.write_str("a read or a write failed")
    }
}

impl Error for Failed {}

/// Bytes that are read from their front.
pub trait Source {
    /// The bytes that are left, where the source tells them.
    ghost rest: { Self → Option (List ℕ) };

    /// How many bytes were given so far. Every source tells it; it stops at the last value of a u64.
    ghost taken: { Self → ℕ };

    /// How often a read has failed. It never falls, and stops at the last value of a u64.
    ghost faults: { Self → ℕ };

    /// Moves bytes from the front of the rest into the front of `buf`, and answers how many.
    ///
    /// `Ok(0)` for a buffer with room is the end. `Err` comes only where `faults` rose, and takes no byte; `Ok` leaves
    /// `faults` as it is.
    fn read(&mut self, buf: &mut [u8]) -> Result<usize, Failed>
        ensures bound { ReadsAtMost result buf.new }
        ensures bytes { ReadConsumes (rest self.old) (rest self.new) result buf.new }
        ensures count { MatchResult result
            (λ n. GrewBy n (taken self.old) (taken self.new))
            (λ _. taken self.new ≡ taken self.old) }
        ensures cause { HasCause (faults self.old) (faults self.new) result };
}

/// Bytes that are written behind the ones before.
pub trait Sink {
    /// All that was written, where the sink tells it.
    ghost text: { Self → Option (List ℕ) };

    /// How often a write has failed. It never falls, and stops at the last value of a u64.
    ghost faults: { Self → ℕ };

    /// Appends all of `bytes`.
    ///
    /// `Err` comes only where `faults` rose, and then a part from the front of `bytes` was appended; `Ok` leaves `faults`
    /// as it is.
    fn write(&mut self, bytes: &[u8]) -> Result<(), Failed>
        ensures written { WritesAll (text self.old) (text self.new) result bytes.now }
        ensures cause { HasCause (faults self.old) (faults self.new) result };

    /// Appends a line, as `write` appends its bytes.
    #[inline]
    fn write_line<L: Line>(&mut self, line: L) -> Result<(), Failed>
        ensures written { WritesAll (text self.old) (text self.new) result (L.bytes line) }
        ensures cause { HasCause (faults self.old) (faults self.new) result }
        ensures short { length (L.bytes line) ≤ 256 }
    {
        let mut buf = [0; LINE_ROOM];
        let len = line.place(&mut buf, 0);
        self.write(&buf[..len])
    }

    /// Appends a line where it can be made at its place at once, and answers whether it did.
    ///
    /// That never fails. Where it did not, nothing has changed, and the line is still to be written.
    #[inline]
    fn take_line<L: Line + Drop>(&mut self, line: L) -> bool
        ensures taken { IsTrue result → Appends (text self.old) (text self.new) (L.bytes line) }
        ensures short { IsTrue result → length (L.bytes line) ≤ 256 }
        ensures kept { result ≡ false → self.new ≡ self.old }
        ensures no_fault { faults self.new ≡ faults self.old }
    {
        // not taken
        let _ = line;
        false
    }

    /// Whether all that is written is thrown away, so that a caller need not make a text only to write it.
    ///
    /// Only a sink that tells no text may say so.
    #[inline]
    fn discards(&self) -> bool
        ensures discards { IsTrue result → text self.now ≡ None }
    {
        false
    }
}
