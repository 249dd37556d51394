//! Sets of the numbers below 256, a bit of four words for each.
//!
//! Contracts see the four words; `specs/Sets.antt` says which numbers they have. The first word is kept apart from the other three:
//! below 64 every call takes a few steps over the first word alone, and no step that a set of 64 numbers would not take but a
//! comparison. No call takes memory, and none goes over the numbers.
//!
//! Proved: each call leaves or tells the numbers that the four words have: which set one and clear one, the first number
//! from one on, and whether there is none from one on or none but one.
#![tactic(auto)]

ghost use Rattle.std.specs.Prelude.{◌≡◌, ◌<◌, ◌≤◌, ◌↔◌, ℕ, IfSome, MatchOption, false, true};
ghost use Rattle.parts_bits.specs.Sets.{HasNoneFrom, HasNoOther, IsFirstFrom, Turns, has};

mod wide;
pub mod words;

use std::marker::Model;
use wide::{add_in, first_in, is_alone_in, remove_in};
use words::{first_bit, has_no_bit, with_bit, without_bit};

/// A set of numbers below 256.
#[derive(Drop)]
pub struct BitSet {
    // the numbers below 64
    low: u64,
    // the numbers from 64 on
    high: [u64; 3],
    // whether it has a number from 64 on
    is_wide: bool,
}

impl Model for BitSet {
    ghost use Rattle.std.specs.Prelude.{◌∷◌, List, ℕ};
    ghost use Rattle.parts_bits.specs.Wide.{TellsAny};

    ghost Value = { List ℕ };

    ghost view = { λ s. s.low ∷ s.high };

    ghost invariant = { λ s. TellsAny s.is_wide s.high };
}

impl BitSet {
    /// No number.
    pub fn empty() -> BitSet
        ensures { (t : ℕ) → has t result ≡ false }
    {
        BitSet {
            low: 0,
            high: [0; 3],
            is_wide: false,
        }
    }

    /// The number comes in; it may be in it already.
    #[inline(always)]
    pub fn add(&mut self, number: u32)
        requires { number < 256 }
        ensures { Turns number true self.old self.new }
    {
        if number < 64 {
            self.low = with_bit(self.low, number);
        } else {
            self.add_high(number);
        }
    }

    #[inline(never)]
    #[tactic(auto, using(crate::proofs::Parts::turned_high))]
    fn add_high(&mut self, number: u32)
        requires high { 64 ≤ number }
        requires small { number < 256 }
        ensures { Turns number true self.old self.new }
    {
        add_in(&mut self.high, number - 64);
        self.is_wide = true;
    }

    /// The number goes out, where it is in it.
    #[inline(always)]
    pub fn remove(&mut self, number: u32)
        requires { number < 256 }
        ensures { Turns number false self.old self.new }
    {
        if number < 64 {
            self.low = without_bit(self.low, number);
        } else {
            self.remove_high(number);
        }
    }

    #[inline(never)]
    #[tactic(auto, using(crate::proofs::Parts::turned_high))]
    fn remove_high(&mut self, number: u32)
        requires high { 64 ≤ number }
        requires small { number < 256 }
        ensures { Turns number false self.old self.new }
    {
        self.is_wide = remove_in(&mut self.high, number - 64);
    }

    /// The least number of the set from that one on; `None` exactly where it has none.
    #[inline(always)]
    pub fn first_from(&self, from: u32) -> Option<u32>
        ensures first { MatchOption result (HasNoneFrom from self.now) (λ t. IsFirstFrom from self.now t) }
        ensures small { IfSome result (λ t. t < 256) }
    {
        if let Some(number) = first_bit(self.low, from) {
            return Some(number);
        }
        if !self.is_wide {
            return None;
        }
        self.first_high(from)
    }

    // The same, where no number below 64 is such a one.
    #[inline(never)]
    #[tactic(auto, using(crate::proofs::Parts::none_high))]
    fn first_high(&self, from: u32) -> Option<u32>
        requires { (t : ℕ) → from ≤ t → t < 64 → has t self.now ≡ false }
        ensures first { MatchOption result (HasNoneFrom from self.now) (λ t. IsFirstFrom from self.now t) }
        ensures small { IfSome result (λ t. t < 256) }
    {
        match first_in(&self.high, from.saturating_sub(64)) {
            None => None,
            Some(number) => Some(64 + number),
        }
    }

    /// Whether the set has no other number.
    #[inline(always)]
    pub fn is_alone(&self, number: u32) -> bool
        requires { number < 256 }
        ensures { (result ≡ true) ↔ HasNoOther number self.now }
    {
        if number >= 64 {
            return self.is_alone_high(number);
        }
        has_no_bit(without_bit(self.low, number)) && !self.is_wide
    }

    #[inline(never)]
    fn is_alone_high(&self, number: u32) -> bool
        requires high { 64 ≤ number }
        requires small { number < 256 }
        ensures { (result ≡ true) ↔ HasNoOther number self.now }
    {
        has_no_bit(self.low) && is_alone_in(&self.high, number - 64)
    }
}
