//! Sources in memory.
ghost use Rattle.std.specs.Prelude.{◌≡◌, ◌≤◌, ◌<◌, ◌-◌, ◌^◌, ◌+◌, [], length, drop, take, min, IfOk, IsOk, Some, is_err, MatchResult};

use crate::{Failed, Source};
use std::marker::Model;

/// Bytes in memory, some of whose reads fail.
///
/// It is seen as its bytes that are left, the numbers of the reads that fail, and three counts.
#[derive(Drop)]
pub struct MemSource {
    bytes: Vec<u8>,
    at: usize,
    fails: Vec<u64>,
    calls: u64,
    taken: u64,
    faults: u64,
}

impl Model for MemSource {
    ghost use Rattle.std.specs.Prelude.{◌≤◌, drop, length};
    ghost use Rattle.parts_io.specs.Memory.{Supply};

    ghost Value = { Supply };

    ghost view = { λ s. record {
      rest = drop s.at s.bytes.items;
      fails = s.fails.items;
      calls = s.calls;
      taken = s.taken;
      faults = s.faults;
    } };

    ghost invariant = { λ s. s.at ≤ length s.bytes.items };
}

impl MemSource {
    /// A source of `bytes`, whose reads with the numbers in `fails` fail. The first read has the number 1.
    pub fn new(bytes: Vec<u8>, fails: Vec<u64>) -> MemSource
        ensures { result ≡ record {
          rest = bytes.items;
          fails = fails.items;
          calls = 0;
          taken = 0;
          faults = 0;
        } }
    {
        MemSource {
            bytes,
            at: 0,
            fails,
            calls: 0,
            taken: 0,
            faults: 0,
        }
    }
}

impl Source for MemSource {
    ghost use Rattle.std.specs.Io.{ReadsAtMost};
    ghost use Rattle.std.specs.Io.KnownBytes.{ReadConsumes};
    ghost use Rattle.parts_io.specs.Causes.{GrewBy, HasCause};
    ghost use Rattle.parts_io.specs.Memory.{after_read, is_failing};

    ghost rest = { λ s. Some s.rest };

    ghost taken = { λ s. s.taken };

    ghost faults = { λ s. s.faults };

    /// Fails exactly where the number of this read stands among the failing ones. Otherwise gives as many bytes as are
    /// left and fit.
    fn read(&mut self, buf: &mut [u8]) -> Result<usize, Failed>
        ensures bound { ReadsAtMost result buf.new }
        ensures bytes { ReadConsumes (Some self.old.rest) (Some self.new.rest) result buf.new }
        ensures count { MatchResult result
            (λ n. GrewBy n self.old.taken self.new.taken)
            (λ _. self.new.taken ≡ self.old.taken) }
        ensures cause { HasCause self.old.faults self.new.faults result }

        ensures failing { is_err result ≡ is_failing self.old.fails self.old.calls }
        ensures most { IfOk result (λ n. n ≡ min (length buf.new) (length self.old.rest)) }
        ensures state { self.new ≡ after_read self.old (length buf.new) }
    {
        self.calls = self.calls.saturating_add(1);
        if self.fails.contains(&self.calls) {
            self.faults = self.faults.saturating_add(1);
            return Err(Failed);
        }
        let count = copy_front(&self.bytes[self.at..], buf);
        self.at += count;
        self.taken = self.taken.saturating_add(count as u64);
        Ok(count)
    }
}

/// Bytes in memory, whose reads never fail.
///
/// It is seen as its bytes that are left and the number of those given.
#[derive(Drop)]
pub struct SureSource {
    bytes: Vec<u8>,
    at: usize,
    taken: u64,
}

impl Model for SureSource {
    ghost use Rattle.std.specs.Prelude.{◌≤◌, drop, length};
    ghost use Rattle.parts_io.specs.Memory.{SureSupply};

    ghost Value = { SureSupply };

    ghost view = { λ s. record { rest = drop s.at s.bytes.items; taken = s.taken } };

    ghost invariant = { λ s. s.at ≤ length s.bytes.items };
}

impl SureSource {
    /// A source of `bytes`.
    pub fn new(bytes: Vec<u8>) -> SureSource
        ensures { result ≡ record { rest = bytes.items; taken = 0 } }
    {
        SureSource {
            bytes,
            at: 0,
            taken: 0,
        }
    }
}

impl Source for SureSource {
    ghost use Rattle.std.specs.Io.{ReadsAtMost};
    ghost use Rattle.std.specs.Io.KnownBytes.{ReadConsumes};
    ghost use Rattle.parts_io.specs.Causes.{GrewBy, HasCause};
    ghost use Rattle.parts_io.specs.Memory.{after_sure_read};

    ghost rest = { λ s. Some s.rest };

    ghost taken = { λ s. s.taken };

    ghost faults = { λ _. 0 };

    /// Never fails, and gives as many bytes as are left and fit.
    fn read(&mut self, buf: &mut [u8]) -> Result<usize, Failed>
        ensures bound { ReadsAtMost result buf.new }
        ensures bytes { ReadConsumes (Some self.old.rest) (Some self.new.rest) result buf.new }
        ensures count { MatchResult result
            (λ n. GrewBy n self.old.taken self.new.taken)
            (λ _. self.new.taken ≡ self.old.taken) }
        ensures cause { HasCause 0 0 result }

        ensures sure { IsOk result }
        ensures most { IfOk result (λ n. n ≡ min (length buf.new) (length self.old.rest)) }
        ensures state { self.new ≡ after_sure_read self.old (length buf.new) }
    {
        let count = copy_front(&self.bytes[self.at..], buf);
        self.at += count;
        self.taken = self.taken.saturating_add(count as u64);
        Ok(count)
    }
}

// Copies as many bytes as there are and fit, from front to front.
fn copy_front(bytes: &[u8], buf: &mut [u8]) -> usize
    ensures most { result ≡ min (length buf.new) (length bytes.now) }
    ensures moved { take result buf.new ≡ take result bytes.now }
{
    let count = buf.len().min(bytes.len());
    buf[..count].copy_from_slice(&bytes[..count]);
    count
}
