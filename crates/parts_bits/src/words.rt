//! The bits of one word.
ghost use Rattle.std.specs.Prelude.{◌≡◌, ◌≢◌, ℕ, ◌<◌, ◌≤◌, ◌↔◌, IfSome, MatchOption, true};
ghost use Rattle.std.specs.Int.{bit_at};
ghost use Rattle.parts_bits.specs.Words.{IsFirstBit};

/// The word after that bit is set.
#[inline(always)]
pub fn with_bit(word: u64, bit: u32) -> u64
    requires { bit < 64 }
    ensures itself { bit_at result bit ≡ 1 }
    ensures others { (k : ℕ) → k ≢ bit → bit_at result k ≡ bit_at word k }
{
    word | (1u64 << bit)
}

/// The word after that bit is cleared.
#[inline(always)]
pub fn without_bit(word: u64, bit: u32) -> u64
    requires { bit < 64 }
    ensures itself { bit_at result bit ≡ 0 }
    ensures others { (k : ℕ) → k ≢ bit → bit_at result k ≡ bit_at word k }
{
    word & !(1u64 << bit)
}

/// Whether no bit is set.
#[inline(always)]
pub fn has_no_bit(word: u64) -> bool
    ensures { (result ≡ true) ↔ ((k : ℕ) → k < 64 → bit_at word k ≡ 0) }
{
    word == 0
}

/// The lowest bit from that one on that is set; `None` exactly where none is.
#[inline(always)]
pub fn first_bit(word: u64, from: u32) -> Option<u32>
    ensures first { MatchOption result ((k : ℕ) → from ≤ k → bit_at word k ≡ 0) (λ bit. IsFirstBit from word bit) }
    ensures small { IfSome result (λ bit. bit < 64) }
{
    if from >= 64 {
        return None;
    }
    let rest = word >> from;
    if rest == 0 {
        return None;
    }
    Some(from + rest.trailing_zeros())
}
