//! A set of numbers that is empty in most runs.
ghost use Rattle.std.specs.Prelude.{◌≡◌, ◌<◌, ℕ, IfSome, MatchOption, false, true};
ghost use Rattle.parts_bits.specs.Sets.{HasNoneFrom, IsFirstFrom, Turns, has};

use parts_bits::BitSet;
use std::marker::Model;

/// A set of numbers below 256 that is empty in most runs: to take a number out of it is one comparison then.
#[derive(Drop)]
pub struct RareSet {
    numbers: BitSet,
    is_empty: bool,
}

impl Model for RareSet {
    ghost use Rattle.std.specs.Prelude.{List, ℕ};
    ghost use Rattle.kernel_table.specs.RareSets.{TellsEmpty};

    ghost Value = { List ℕ };

    ghost view = { λ s. s.numbers };

    ghost invariant = { λ s. TellsEmpty s.is_empty s.numbers };
}

impl RareSet {
    /// No number.
    pub(crate) fn empty() -> RareSet
        ensures { (n : ℕ) → has n result ≡ false }
    {
        RareSet {
            numbers: BitSet::empty(),
            is_empty: true,
        }
    }

    /// The number comes in; it may be in it already.
    pub(crate) fn add(&mut self, number: u16)
        requires { number < 256 }
        ensures { Turns number true self.old self.new }
    {
        self.numbers.add(number as u32);
        self.is_empty = false;
    }

    /// The number goes out, where it is in it.
    #[inline(always)]
    pub(crate) fn remove(&mut self, number: u16)
        requires { number < 256 }
        ensures { Turns number false self.old self.new }
    {
        if !self.is_empty {
            self.remove_in_full(number);
        }
    }

    // Where it is not known to be empty.
    #[inline(never)]
    fn remove_in_full(&mut self, number: u16)
        requires { number < 256 }
        ensures { Turns number false self.old self.new }
    {
        self.numbers.remove(number as u32);
        self.is_empty = self.numbers.first_from(0).is_none();
    }

    /// The number comes in or goes out.
    #[inline(always)]
    pub(crate) fn turn(&mut self, number: u16, is_in: bool)
        requires { number < 256 }
        ensures { Turns number is_in self.old self.new }
    {
        if is_in {
            self.add(number);
        } else {
            self.remove(number);
        }
    }

    /// The least number of the set from that one on; `None` exactly where it has none.
    pub(crate) fn first_from(&self, from: u16) -> Option<u16>
        ensures first { MatchOption result (HasNoneFrom from self.now) (λ n. IsFirstFrom from self.now n) }
        ensures small { IfSome result (λ n. n < 256) }
    {
        let number = self.numbers.first_from(from as u32)?;
        Some(number as u16)
    }
}
