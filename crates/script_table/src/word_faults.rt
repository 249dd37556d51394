//! What is wrong with the words of a line, by the places of its pattern.
ghost use Rattle.std.specs.Prelude.{◌≡◌, None, true};
ghost use Rattle.script_table.specs.Faults.{lesser_first};
ghost use Rattle.script_table.specs.Patterns.{spot_of};
ghost use Rattle.script_table.specs.LineFaults.{spelling};
ghost use Rattle.script_table.specs.Ranges.{is_within, range_fault};
ghost use Rattle.script_table.specs.Words.{is_number};

use crate::faults::lesser_first;
use crate::line_faults::spelling;
use crate::ranges::range_fault;
use crate::words::short_number;
use crate::{FaultKind, Place};
use words_numbers::GREATEST_NUMBER;

/// The least kind of what is misspelled in the words of a line, and of what is out of its range.
#[derive(Clone, Copy)]
pub struct WordFaults {
    pub spelling: Option<FaultKind>,
    pub range: Option<FaultKind>,
}

#[inline(always)]
pub(crate) fn no_faults() -> WordFaults
    ensures { (result.spelling ≡ None) × (result.range ≡ None) }
{
    WordFaults {
        spelling: None,
        range: None,
    }
}

// Most numbers are short ones in their range.
#[inline(always)]
pub(crate) fn is_short_within(low: u64, high: u64, word: &[u8]) -> bool
    ensures { (result ≡ true) → (is_number word.now ≡ true) × (is_within low high word.now ≡ true) }
{
    match short_number(word) {
        None => false,
        Some(value) => low <= value && value <= high,
    }
}

// Whether it is seen at once that nothing is wrong with a word.
#[inline(always)]
fn is_right(place: &Place, word: &[u8]) -> bool
    ensures { (result ≡ true) → (spelling (spot_of place.now) word.now ≡ None) × (range_fault (spot_of place.now) word.now ≡ None) }
{
    match place {
        Place::Number { low, high } => is_short_within(*low, *high, word),
        Place::Operand => is_short_within(0, GREATEST_NUMBER, word),
        _ => spelling(place, word).is_none(),
    }
}

#[inline(never)]
fn faults_of_word(place: &Place, word: &[u8]) -> WordFaults
    ensures { (result.spelling ≡ spelling (spot_of place.now) word.now) × (result.range ≡ range_fault (spot_of place.now) word.now) }
{
    WordFaults {
        spelling: spelling(place, word),
        range: range_fault(place, word),
    }
}

// The least of both.
#[inline(never)]
fn joined(first: WordFaults, later: WordFaults) -> WordFaults
    ensures { (result.spelling ≡ lesser_first first.spelling later.spelling) × (result.range ≡ lesser_first first.range later.range) }
{
    WordFaults {
        spelling: lesser_first(first.spelling, later.spelling),
        range: lesser_first(first.range, later.range),
    }
}

/// The least of what is found and of what is wrong with one more word.
#[inline(always)]
pub(crate) fn with_word(found: WordFaults, place: &Place, word: &[u8]) -> WordFaults
    ensures { (result.spelling ≡ lesser_first found.spelling (spelling (spot_of place.now) word.now))
        × (result.range ≡ lesser_first found.range (range_fault (spot_of place.now) word.now)) }
{
    if is_right(place, word) {
        found
    } else {
        joined(found, faults_of_word(place, word))
    }
}
