//! Words that are made in one row of bytes, to be written at once.
ghost use Rattle.std.specs.Prelude.{◌≡◌, ◌≤◌, ◌+◌, ◌∷◌, decimal, length, map, true};
ghost use Rattle.parts_bytes.specs.Placed.{Placed};
ghost use Rattle.script_lex.specs.Joined.{after_blanks, joined_words};
ghost use Rattle.script_writer.specs.Line.{AreShort, IsShort, spelled, total_width, width};

use parts_bytes::{place_bytes, place_numeral, place_word};
use script_writer::{Word, word_text};

/// How many bytes a row has.
pub(crate) const ROOM: usize = 256;

// The most bytes that a word takes with a blank.
fn width(word: &Word<'_>) -> usize
    ensures { result ≡ width word.now }
{
    match word {
        Word::Keyword(_) => 17,
        Word::Name(_) => 33,
        Word::Number(_) => 21,
        Word::Value(_) => 21,
        Word::Signal(_) => 6,
        Word::Signals(_) => 193,
    }
}

/// Whether words have room in a row, with a byte more.
pub(crate) fn have_room(words: &[Word<'_>]) -> bool
    ensures { result ≡ true → total_width words.now + 1 ≤ 256 }
{
    let mut left = ROOM - 1;
    for word in words {
        let taken = width(word);
        if taken > left {
            return false;
        }
        left -= taken;
    }
    true
}

/// Puts a number at the front.
pub(crate) fn place_number(row: &mut [u8], number: u64) -> usize
    requires { 20 ≤ length row.old }
    ensures placed { Placed row.old row.new 0 (decimal number) result }
    ensures within { result ≤ 20 }
{
    place_numeral(row, 0, number)
}

// Puts a word at a place. The text of most words stands somewhere already.
#[inline(always)]
fn place_text(row: &mut [u8], at: usize, word: &Word<'_>) -> usize
    requires short { IsShort word.now }
    requires room { at + width word.now ≤ length row.old + 1 }
    ensures placed { Placed row.old row.new at (spelled word.now) result }
    ensures within { result + 1 ≤ at + width word.now }
{
    match word {
        Word::Keyword(text) => place_word(row, at, text),
        Word::Name(text) => place_word(row, at, text),
        Word::Number(number) => place_numeral(row, at, *number),
        _ => place_bytes(row, at, word_text(word).as_slice()),
    }
}

// Puts a blank and a word at a place.
#[inline(always)]
fn place_spaced(row: &mut [u8], at: usize, word: &Word<'_>) -> usize
    requires short { IsShort word.now }
    requires room { at + width word.now ≤ length row.old }
    ensures placed { Placed row.old row.new at (32 ∷ spelled word.now) result }
    ensures within { result ≤ at + width word.now }
{
    let at = place_word(row, at, b" ");
    place_text(row, at, word)
}

/// Puts words at a place, with a blank before each, and answers the place behind them.
pub(crate) fn place_words(row: &mut [u8], at: usize, words: &[Word<'_>]) -> usize
    requires short { AreShort words.now }
    requires room { at + total_width words.now ≤ length row.old }
    ensures placed { Placed row.old row.new at (after_blanks (map spelled words.now)) result }
    ensures within { result ≤ at + total_width words.now }
{
    let mut end = at;
    for word in words {
        end = place_spaced(row, end, word);
    }
    end
}

/// Puts words at the front, with one blank between them, and answers the place behind them.
pub(crate) fn place_line(row: &mut [u8], words: &[Word<'_>]) -> usize
    requires short { AreShort words.now }
    requires room { total_width words.now ≤ length row.old }
    ensures placed { Placed row.old row.new 0 (joined_words (map spelled words.now)) result }
    ensures within { result ≤ total_width words.now }
{
    let [first, rest @ ..] = words else {
        return 0;
    };
    let end = place_text(row, 0, first);
    place_words(row, end, rest)
}
