//! A set of small numbers, a bit for each.
ghost use Rattle.std.specs.Prelude.{◌≡◌, ℕ, suc, ◌<◌, ◌≤◌, false, true, slice_index};
ghost use Rattle.std.specs.Int.{bit_at};
ghost use Rattle.parts_ready.specs.Bits.{AreClear, ChangesBit, is_set, NoneIsSet};

use parts_bits::words::{with_bit, without_bit};

/// Which of 256 places are taken.
#[derive(Drop)]
pub struct Bitmap {
    words: [u64; 4],
}

impl Bitmap {
    /// No place is taken.
    pub fn new() -> Bitmap
        ensures { NoneIsSet result.words }
    {
        Bitmap { words: [0; 4] }
    }

    /// Marks the place as taken.
    #[inline(always)]
    pub fn mark(&mut self, place: u32)
        requires { place < 256 }
        ensures { ChangesBit place true self.old.words self.new.words }
    {
        let index = place as usize / 64;
        self.words[index] = with_bit(self.words[index], place % 64);
    }

    /// Marks the place as free.
    #[inline(always)]
    pub fn unmark(&mut self, place: u32)
        requires { place < 256 }
        ensures { ChangesBit place false self.old.words self.new.words }
    {
        let index = place as usize / 64;
        self.words[index] = without_bit(self.words[index], place % 64);
    }

    /// The highest place that is taken. 0 where none is.
    #[inline(always)]
    pub fn highest(&self) -> u32
        ensures above { AreClear (suc result) self.now.words }
        ensures itself { 0 < result → is_set result self.now.words ≡ true }
    {
        let index = self.highest_word();
        index * 64 + highest_bit(self.words[index as usize])
    }

    /// Behind the highest place below that one that is taken. 0 where none is.
    #[inline(always)]
    pub fn end_below(&self, place: u32) -> u32
        requires { place ≤ 256 }
        ensures below { result ≤ place }
        ensures free { (k : ℕ) → result ≤ k → k < place → is_set k self.now.words ≡ false }
    {
        let mut end = place;
        while end > 0 {
            let index = (end - 1) / 64;
            let start = 64 * index;
            let bits = bits_below(self.words[index as usize], end - start);
            if bits > 0 {
                return start + bits;
            }
            end = start;
        }
        0
    }

    // The highest word that has a bit. The lowest where none has one.
    #[inline(always)]
    fn highest_word(&self) -> u32
        ensures small { result < 4 }
        ensures above { (k : ℕ) → result < k → slice_index self.now.words k ≡ 0 }
        ensures itself { 0 < result → 0 < slice_index self.now.words result }
    {
        if self.words[3] != 0 {
            3
        } else if self.words[2] != 0 {
            2
        } else if self.words[1] != 0 {
            1
        } else {
            0
        }
    }
}

// the highest bit of the word that is set, 0 where none is
fn highest_bit(word: u64) -> u32
    ensures small { result < 64 }
    ensures none { word ≡ 0 → result ≡ 0 }
    ensures itself { 0 < word → bit_at word result ≡ 1 }
    ensures above { (k : ℕ) → result < k → bit_at word k ≡ 0 }
{
    63 - (word | 1).leading_zeros()
}

// behind the highest bit of the word below that one that is set, 0 where none is
fn bits_below(word: u64, end: u32) -> u32
    requires { end ≤ 64 }
    ensures below { result ≤ end }
    ensures clear { (k : ℕ) → result ≤ k → k < end → bit_at word k ≡ 0 }
{
    if end == 0 {
        return 0;
    }
    let low = word & (u64::MAX >> (64 - end));
    if low == 0 {
        return 0;
    }
    highest_bit(low) + 1
}
