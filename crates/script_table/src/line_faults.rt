//! The pattern of a line.
ghost use Rattle.std.specs.Prelude.{◌≡◌, ◌∷◌, [], map, None, true, false, length, IfSome, MatchOption};
ghost use Rattle.std.specs.Str.{bytes_eq};
ghost use Rattle.std.specs.Option.{option_map};
ghost use Rattle.script_table.specs.Faults.{least_kind};
ghost use Rattle.script_table.specs.Patterns.{spot_of, row_of, rows_of};
ghost use Rattle.script_table.specs.LineFaults.{stands, agrees, fits, any_agrees, fitting_row, place_faults, spelling, unless};
ghost use Rattle.script_table.specs.Ranges.{range_fault};
ghost use Rattle.script_table.specs.WordFaults.{AreFaultsIn};
ghost use Rattle.words_script.specs.Names.{is_name};

use crate::word_faults::{is_short_within, no_faults, with_word};
use crate::words::{answer_of, is_number, is_register, set_of, signal_of};
use crate::{FaultKind, Pattern, Place, Table, WordFaults};
use script_lex::Words;
use words_script::Name;

// Words are short: byte by byte is the quickest.
fn are_same(word: &[u8], keyword: &[u8]) -> bool
    requires { length word.now ≡ length keyword.now }
    ensures { result ≡ bytes_eq word.now keyword.now }
{
    match word {
        [] => true,
        [first, rest @ ..] => *first == keyword[0] && are_same(rest, &keyword[1..]),
    }
}

// Most keywords have another length, and then no byte is looked at.
#[inline(always)]
fn is_keyword(word: &[u8], keyword: &[u8]) -> bool
    ensures { result ≡ bytes_eq word.now keyword.now }
{
    word.len() == keyword.len() && are_same(word, keyword)
}

#[inline(always)]
fn stands(place: &Place, word: &[u8]) -> bool
    ensures { result ≡ stands (spot_of place.now) word.now }
{
    match place {
        Place::Keyword(keyword) => is_keyword(word, keyword),
        Place::Answer => answer_of(word).is_some(),
        _ => true,
    }
}

fn agrees(places: &[Place], mut words: Words<'_>) -> bool
    ensures { result ≡ agrees (map spot_of places.now) words.entry.words }
{
    match places {
        [] => true,
        [place, rest @ ..] => match words.next_word() {
            None => true,
            Some(word) => stands(place, word.bytes) && agrees(rest, words),
        },
    }
}

// Whether it is seen at once that there is one word, and that nothing is wrong with it.
#[inline(always)]
fn is_right_alone(place: &Place, words: &Words<'_>) -> bool
    ensures { (result ≡ true) → (fits (spot_of place.now ∷ []) words.now.words ≡ true)
        × (least_kind (place_faults spelling (spot_of place.now ∷ []) words.now.words) ≡ None)
        × (least_kind (place_faults range_fault (spot_of place.now ∷ []) words.now.words) ≡ None) }
{
    match place {
        Place::Number { low, high } => is_short_within(*low, *high, words.from_first()),
        _ => false,
    }
}

// What is wrong with these words, where the places fit. Most lines have a short number behind their keyword, or nothing.
#[inline(always)]
fn fits(places: &[Place], words: &Words<'_>) -> Option<WordFaults>
    ensures { MatchOption result (fits (map spot_of places.now) words.now.words ≡ false)
        (λ f. (fits (map spot_of places.now) words.now.words ≡ true) × AreFaultsIn f (map spot_of places.now) words.now.words) }
{
    match places {
        [] => if words.is_over() {
            Some(no_faults())
        } else {
            None
        },
        [place] => if is_right_alone(place, words) {
            Some(no_faults())
        } else {
            fits_each(places, words)
        },
        _ => fits_each(places, words),
    }
}

// The same place by place.
#[inline(never)]
fn fits_each(places: &[Place], words: &Words<'_>) -> Option<WordFaults>
    ensures { MatchOption result (fits (map spot_of places.now) words.now.words ≡ false)
        (λ f. (fits (map spot_of places.now) words.now.words ≡ true) × AreFaultsIn f (map spot_of places.now) words.now.words) }
{
    let mut ahead = words.again();
    let mut found = no_faults();
    for place in places {
        let Some(word) = ahead.next_word() else {
            return None;
        };
        if !stands(place, word.bytes) {
            return None;
        }
        found = with_word(found, place, word.bytes);
    }
    if ahead.next_word().is_none() {
        Some(found)
    } else {
        None
    }
}

// The same of a line of this first word, which other words follow.
#[inline(always)]
fn fits_pattern(pattern: &Pattern, first: &[u8], words: &Words<'_>) -> Option<WordFaults>
    ensures fit { MatchOption result (fits (row_of pattern.now).places (first.now ∷ words.now.words) ≡ false)
        (λ f. (fits (row_of pattern.now).places (first.now ∷ words.now.words) ≡ true)
        × AreFaultsIn f (row_of pattern.now).places (first.now ∷ words.now.words)) }
    ensures keyword { IfSome result (λ _. pattern.now.keyword.now ≡ first.now) }
{
    if is_keyword(first, pattern.keyword) {
        fits(pattern.places, words)
    } else {
        None
    }
}

fn pattern_agrees(pattern: &Pattern, mut words: Words<'_>) -> bool
    ensures { result ≡ agrees (row_of pattern.now).places words.entry.words }
{
    let Some(first) = words.next_word() else {
        return true;
    };
    is_keyword(first.bytes, pattern.keyword) && agrees(pattern.places, words)
}

fn any_agrees_in(patterns: &[Pattern], words: &Words<'_>) -> bool
    ensures { result ≡ any_agrees (map row_of patterns.now) words.now.words }
{
    match patterns {
        [] => false,
        [pattern, rest @ ..] => pattern_agrees(pattern, words.again())
            || any_agrees_in(rest, words),
    }
}

/// The pattern of a line, and what is wrong with the line's words by it.
#[derive(Clone, Copy)]
pub struct Fitting {
    pub pattern: &'static Pattern,
    pub faults: WordFaults,
}

#[inline(always)]
fn fitting_in(patterns: &'static [Pattern], first: &[u8], words: &Words<'_>) -> Option<Fitting>
    ensures row { option_map (λ f. row_of f.pattern.now) result
        ≡ fitting_row (map row_of patterns.now) (first.now ∷ words.now.words) }
    ensures faults { IfSome result (λ f. AreFaultsIn f.faults (row_of f.pattern.now).places (first.now ∷ words.now.words)) }
    ensures keyword { IfSome result (λ f. f.pattern.now.keyword.now ≡ first.now) }
{
    for pattern in patterns {
        if let Some(faults) = fits_pattern(pattern, first, words) {
            return Some(Fitting { pattern, faults });
        }
    }
    None
}

/// The pattern of the table that agrees with a line of these words and has their number, where the first word is known, and `words` are
/// those that follow it; `None` exactly where there is none.
#[inline(always)]
pub fn fitting_pattern(table: &Table, first: &[u8], words: &Words<'_>) -> Option<Fitting>
    ensures row { option_map (λ f. row_of f.pattern.now) result ≡ fitting_row (rows_of table.now) (first.now ∷ words.now.words) }
    ensures faults { IfSome result (λ f. AreFaultsIn f.faults (row_of f.pattern.now).places (first.now ∷ words.now.words)) }
    ensures keyword { IfSome result (λ f. f.pattern.now.keyword.now ≡ first.now) }
{
    if let Some(found) = fitting_in(table.declarations, first, words) {
        return Some(found);
    }
    if let Some(found) = fitting_in(table.steps, first, words) {
        return Some(found);
    }
    fitting_in(table.calls, first, words)
}

/// Whether a pattern of the table agrees with a line of these words: each of its keywords stands at its place, or the line is
/// too short to have that place.
pub fn any_agrees(table: &Table, words: &Words<'_>) -> bool
    ensures { result ≡ any_agrees (rows_of table.now) words.now.words }
{
    any_agrees_in(table.declarations, words)
        || (any_agrees_in(table.steps, words) || any_agrees_in(table.calls, words))
}

fn is_name(word: &[u8]) -> bool
    ensures { result ≡ is_name word.now }
{
    Name::try_new(word).is_some()
}

pub(crate) fn unless(holds: bool, kind: FaultKind) -> Option<FaultKind>
    ensures { result ≡ unless holds kind }
{
    if holds { None } else { Some(kind) }
}

pub(crate) fn spelling(place: &Place, word: &[u8]) -> Option<FaultKind>
    ensures { result ≡ spelling (spot_of place.now) word.now }
{
    match place {
        Place::Keyword(_) => None,
        Place::Answer => None,
        Place::Number { .. } => unless(is_number(word), FaultKind::BadNumber),
        Place::Operand => unless(is_number(word) || is_register(word), FaultKind::BadNumber),
        Place::Declares(_) => unless(is_name(word), FaultKind::BadName),
        Place::Uses(_) => unless(is_name(word), FaultKind::BadName),
        Place::Signal => unless(signal_of(word).is_some(), FaultKind::BadName),
        Place::Acts => unless(signal_of(word).is_some(), FaultKind::BadName),
        Place::Signals => unless(set_of(word).is_some(), FaultKind::BadName),
    }
}
