//! A set of small numbers, a bit for each.
ghost use Rattle.std.specs.Prelude.{◌≡◌, ◌≢◌, ℕ, ◌<◌, ◌≤◌, ◌*◌, if◌then◌else◌, MatchOption, IfOk, length, true};
ghost use Rattle.std.specs.Int.{bit_at};
ghost use Rattle.parts_wheel.specs.Bits.{ChangesBit, IsLowestSet, NoneIsSet};

use std::alloc::{AllocError, Global};
use std::marker::Model;

/// Which places are taken, 64 for each word.
#[derive(Drop)]
pub struct Bits {
    words: Vec<u64>,
    // a bit for each word that is not 0
    used: u64,
}

impl Model for Bits {
    ghost use Rattle.std.specs.Prelude.{List, ℕ};
    ghost use Rattle.parts_wheel.specs.Bits.{AreUsed};

    ghost Value = { List ℕ };

    ghost view = { λ b. b.words.items };

    ghost invariant = { λ b. AreUsed b.used b.words.items };
}

impl Bits {
    /// No place is taken.
    pub(crate) fn open(alloc: Global, words: usize) -> Result<Bits, AllocError>
        requires { words ≤ 64 }
        ensures { IfOk result (λ b. (length b ≡ words) × NoneIsSet b) }
    {
        let words = vec![in alloc; 0u64; words]?;
        Ok(Bits { words, used: 0 })
    }

    /// The place is taken, or is not, afterwards.
    #[inline(always)]
    pub(crate) fn set(&mut self, place: u32, taken: bool)
        requires { place < 64 * length self.old }
        ensures bit { ChangesBit place taken self.old self.new }
        ensures len { length self.new ≡ length self.old }
    {
        let index = place / 64;
        let word = with_bit(self.words[index as usize], place % 64, taken);
        self.words[index as usize] = word;
        self.used = with_bit(self.used, index, word != 0);
    }

    /// Whether no place is taken.
    pub(crate) fn is_empty(&self) -> bool
        ensures { result ≡ true → NoneIsSet self.now }
    {
        self.used == 0
    }

    /// The lowest place that is taken. None exactly where none is.
    #[inline(always)]
    pub(crate) fn lowest(&self) -> Option<u32>
        ensures { MatchOption result (NoneIsSet self.now) (λ place. IsLowestSet self.now place × (place < 64 * length self.now)) }
    {
        if self.used == 0 {
            return None;
        }
        let index = lowest_bit(self.used);
        let word = self.words[index as usize];
        Some(index * 64 + lowest_bit(word))
    }
}

// the word after that bit alone has changed
fn with_bit(word: u64, bit: u32, value: bool) -> u64
    requires { bit < 64 }
    ensures changed { bit_at result bit ≡ (if value then 1 else 0) }
    ensures others { (k : ℕ) → k < 64 → k ≢ bit → bit_at result k ≡ bit_at word k }
{
    (word & !(1u64 << bit)) | ((value as u64) << bit)
}

// the lowest bit of the word that is set
fn lowest_bit(word: u64) -> u32
    requires { 0 < word }
    ensures small { result < 64 }
    ensures is_set { bit_at word result ≡ 1 }
    ensures below { (k : ℕ) → k < result → bit_at word k ≡ 0 }
{
    word.trailing_zeros()
}
