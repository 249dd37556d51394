//! The time of an event, most of whose digits are those of the event before.
ghost use Rattle.std.specs.Prelude.{◌≡◌, ◌≤◌, ◌<◌, ◌+◌, ◌-◌, ◌%◌, ◌^◌, decimal, length, take};
ghost use Rattle.parts_bytes.specs.Placed.{Placed};

use itoa::Buffer;
use parts_bytes::{place_digits, place_eight, place_pair, place_within, place_word};
use std::marker::Model;

// Times from here on share no digits: there would be more than 16.
const FAR: u64 = 1_000_000_000_000_000_000;

// The digits of a number of at most 16, at the front. The answer is how many they are.
#[inline(always)]
fn place_shared(digits: &mut [u8; 16], n: u64) -> usize
    requires { n < 10 ^ 16 }
    ensures digits { take result digits.new ≡ decimal n }
    ensures few { result ≤ 16 }
{
    if n < 100_000_000 {
        return place_eight(digits, 0, n);
    }
    place_word(digits, 0, Buffer::new().format(n).as_bytes())
}

/// A hundred instants that share all digits but the last two, and these digits. It is seen as the first of the instants.
#[derive(Drop)]
pub(crate) struct Hundred {
    first: u64,
    digits: [u8; 16],
    len: usize,
}

impl Model for Hundred {
    ghost use Rattle.std.specs.Prelude.{ℕ, ◌≤◌, ◌<◌, ◌^◌, take};
    ghost use Rattle.parts_tracer.specs.Placed.{AreShared};

    ghost Value = { ℕ };

    ghost view = { λ h. h.first };

    ghost invariant = { λ h. (h.len ≤ 16) × (h.first < 10 ^ 18) × AreShared (take h.len h.digits) h.first };
}

impl Hundred {
    /// The first hundred whose instants have digits to share.
    pub(crate) fn new() -> Hundred
        ensures { result ≡ 100 }
    {
        Hundred {
            first: 100,
            digits: *b"1               ",
            len: 1,
        }
    }

    /// Whether a time is one of these instants.
    #[inline(always)]
    pub(crate) fn has(&self, now: u64) -> bool {
        now.wrapping_sub(self.first) < 100
    }

    /// Becomes the hundred of a time, where its digits can be shared.
    #[inline(always)]
    pub(crate) fn turn_to(&mut self, now: u64) {
        if !self.has(now) {
            self.turn_in_full(now);
        }
    }

    // The same of a time of another hundred.
    #[inline(never)]
    fn turn_in_full(&mut self, now: u64) {
        if now < 100 || now >= FAR {
            return;
        }
        self.len = place_shared(&mut self.digits, now / 100);
        self.first = now - now % 100;
    }

    /// Puts the digits of a time, without a call where it is one of this hundred.
    #[inline(always)]
    pub(crate) fn place(&self, buf: &mut [u8], at: usize, now: u64) -> usize
        requires { at + 20 ≤ length buf.old }
        ensures placed { Placed buf.old buf.new at (decimal now) result }
        ensures within { result ≤ at + 20 }
    {
        let last = now.wrapping_sub(self.first);
        if last >= 100 {
            return place_digits(buf, at, now);
        }
        let at = place_within::<16>(buf, at, &self.digits, self.len);
        place_pair(buf, at, last)
    }
}
