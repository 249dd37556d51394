//! The numbers of a set from 64 on, each less 64: a bit of three words for each.
ghost use Rattle.std.specs.Prelude.{◌≡◌, ◌<◌, ◌↔◌, IfSome, MatchOption, false, true};
ghost use Rattle.parts_bits.specs.Sets.{HasNoneFrom, HasNoOther, IsFirstFrom, Turns};
ghost use Rattle.parts_bits.specs.Wide.{TellsAny};

use crate::words::{first_bit, with_bit, without_bit};

// The number comes in.
pub(crate) fn add_in(words: &mut [u64; 3], number: u32)
    requires { number < 192 }
    ensures { Turns number true words.old words.new }
{
    let index = number as usize / 64;
    words[index] = with_bit(words[index], number % 64);
}

// The number goes out. Tells whether one is left.
pub(crate) fn remove_in(words: &mut [u64; 3], number: u32) -> bool
    requires { number < 192 }
    ensures removed { Turns number false words.old words.new }
    ensures left { TellsAny result words.new }
{
    let index = number as usize / 64;
    words[index] = without_bit(words[index], number % 64);
    first_in(words, 0).is_some()
}

// The least number from that one on; `None` exactly where there is none.
pub(crate) fn first_in(words: &[u64; 3], from: u32) -> Option<u32>
    ensures first { MatchOption result (HasNoneFrom from words.now) (λ t. IsFirstFrom from words.now t) }
    ensures small { IfSome result (λ t. t < 192) }
{
    for index in 0..3u32 {
        let low = 64 * index;
        if let Some(bit) = first_bit(words[index as usize], from.saturating_sub(low)) {
            return Some(low + bit);
        }
    }
    None
}

// Whether there is no other number.
pub(crate) fn is_alone_in(words: &[u64; 3], number: u32) -> bool
    requires { number < 192 }
    ensures { (result ≡ true) ↔ HasNoOther number words.now }
{
    match first_in(words, 0) {
        None => true,
        Some(first) => first == number && first_in(words, number + 1).is_none(),
    }
}
