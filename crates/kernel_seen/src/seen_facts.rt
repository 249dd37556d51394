//! What was seen of each fact by number, and whether its text may be empty.
ghost use Rattle.std.specs.Prelude.{ℕ, ◌≡◌, ◌<◌, ◌≤◌, ◌+◌, ◌%◌, ◌^◌, IfOk, false, length, slice_index_or, slice_set, true};
ghost use Rattle.kernel_seen.specs.FactSeen.{AreSameElse, may_tell, no_memory};
ghost use Rattle.kernel_seen.specs.declared.fact_seen.FactSeen.TheVariants as variant;

use crate::fact_seen::FactSeen;
use parts_bits::words::{first_bit, has_no_bit, with_bit, without_bit};
use parts_filled::filled;
use std::alloc::{AllocError, Global};
use std::marker::Model;

/// What was seen of facts by number, and a bit for each, of 64 in a word, that is clear where its text is known to be empty.
#[derive(Drop)]
pub struct SeenFacts {
    facts: Vec<FactSeen>,
    busy: Vec<u64>,
}

impl Model for SeenFacts {
    ghost use Rattle.kernel_seen.specs.FactSeen.{Memory};

    ghost Value = { Memory };

    ghost view = { λ s. record { facts = s.facts.items; busy = s.busy.items } };
}

impl SeenFacts {
    /// Of so many facts nothing. It takes all memory at once.
    pub fn open(alloc: Global, count: usize) -> Result<SeenFacts, AllocError>
        requires { count < 2 ^ 32 }
        ensures { IfOk result (λ s. s ≡ no_memory count) }
    {
        Ok(SeenFacts {
            facts: filled(alloc, count, FactSeen::Unseen)?,
            busy: filled(alloc, count / 64 + 1, 0)?,
        })
    }

    /// How many facts there are.
    pub fn count(&self) -> usize
        ensures { result ≡ length self.now.facts }
    {
        self.facts.len()
    }

    /// What was seen last of a fact.
    pub fn last(&self, number: usize) -> &FactSeen
        requires { number < length self.now.facts }
        ensures { result.now ≡ slice_index_or self.now.facts number variant.Unseen }
    {
        &self.facts[number]
    }

    /// That is seen of a fact, whose text is empty or not.
    pub fn put(&mut self, number: usize, seen: &FactSeen, is_empty: bool)
        ensures facts { self.new.facts ≡ slice_set self.old.facts number seen.now }
        ensures empty { may_tell number self.new.busy ≡ false → is_empty ≡ true }
        ensures others { AreSameElse number self.old.busy self.new.busy }
    {
        if number < self.facts.len() {
            self.facts[number] = *seen;
        }
        if is_empty {
            self.note_empty(number);
        } else {
            self.note_told(number);
        }
    }

    // The text of a fact may not be empty.
    fn note_told(&mut self, number: usize)
        ensures facts { self.new.facts ≡ self.old.facts }
        ensures told { may_tell number self.new.busy ≡ true }
        ensures others { AreSameElse number self.old.busy self.new.busy }
    {
        let index = number / 64;
        if index < self.busy.len() {
            self.busy[index] = with_bit(self.busy[index], (number % 64) as u32);
        }
    }

    // The text of a fact is empty.
    fn note_empty(&mut self, number: usize)
        ensures facts { self.new.facts ≡ self.old.facts }
        ensures others { AreSameElse number self.old.busy self.new.busy }
    {
        let index = number / 64;
        if index < self.busy.len() {
            self.busy[index] = without_bit(self.busy[index], (number % 64) as u32);
        }
    }

    // How many facts from a number on told nothing, of so many, as far as the word of its bit shows.
    #[inline(always)]
    fn quiet_in_word(&self, number: usize, most: usize) -> usize
        ensures few { result ≤ most }
        ensures quiet { (i : ℕ) → i < result → may_tell (number + i) self.now.busy ≡ false }
    {
        let index = number / 64;
        if index >= self.busy.len() {
            return 0;
        }
        let bit = (number % 64) as u32;
        let end = match first_bit(self.busy[index], bit) {
            Some(first) => first,
            None => 64,
        };
        most.min((end - bit) as usize)
    }

    // Whether none of the 64 facts from a number on may tell, where the first bit of a word is that of the first.
    #[inline(always)]
    fn is_quiet_word(&self, number: usize) -> bool
        requires { number % 64 ≡ 0 }
        ensures { result ≡ true → (i : ℕ) → i < 64 → may_tell (number + i) self.now.busy ≡ false }
    {
        let index = number / 64;
        if index >= self.busy.len() {
            return false;
        }
        has_no_bit(self.busy[index])
    }

    // The same, as far as the words of their bits show, one behind the other.
    #[inline(never)]
    fn quiet_in_words(&self, number: usize, most: usize) -> usize
        requires small { number + most < 2 ^ 64 }
        requires first { number % 64 ≡ 0 }
        ensures few { result ≤ most }
        ensures quiet { (i : ℕ) → i < result → may_tell (number + i) self.now.busy ≡ false }
    {
        let mut quiet = 0;
        while most - quiet >= 64 && self.is_quiet_word(number + quiet) {
            quiet += 64;
        }
        quiet + self.quiet_in_word(number + quiet, most - quiet)
    }

    /// How many facts from a number on told nothing, of so many, as far as the bits show. Mostly one word shows it.
    #[inline(always)]
    pub fn quiet_from(&self, number: usize, most: usize) -> usize
        requires { number + most < 2 ^ 64 }
        ensures few { result ≤ most }
        ensures quiet { (i : ℕ) → i < result → may_tell (number + i) self.now.busy ≡ false }
    {
        let quiet = self.quiet_in_word(number, most);
        if quiet == most || (number + quiet) % 64 != 0 {
            return quiet;
        }
        quiet + self.quiet_in_words(number + quiet, most - quiet)
    }
}
