//! The ranges of numbers.
ghost use Rattle.std.specs.Prelude.{◌≡◌};
ghost use Rattle.script_table.specs.Patterns.{spot_of};
ghost use Rattle.script_table.specs.Ranges.{is_within, range_fault};

use crate::line_faults::unless;
use crate::words::{capped_value, is_register};
use crate::{FaultKind, Place};
use words_numbers::GREATEST_NUMBER;

// Whether the value of digits lies in a range.
fn is_within(low: u64, high: u64, word: &[u8]) -> bool
    ensures { result ≡ is_within low high word.now }
{
    let value = capped_value(word, high);
    low as u128 <= value && value <= high as u128
}

pub(crate) fn range_fault(place: &Place, word: &[u8]) -> Option<FaultKind>
    ensures { result ≡ range_fault (spot_of place.now) word.now }
{
    match place {
        Place::Number { low, high } => unless(is_within(*low, *high, word), FaultKind::NumberRange),
        Place::Operand => unless(
            is_register(word) || is_within(0, GREATEST_NUMBER, word),
            FaultKind::NumberRange,
        ),
        _ => None,
    }
}
