//! What a single word says.
ghost use Rattle.std.specs.Prelude.{◌≡◌, ◌≤◌, ◌<◌, ◌+◌, ◌^◌, ◌==◌, true, not, [], ◌∷◌, min, length, IfSome};
ghost use Rattle.std.specs.List.{list_all, prefix_len};
ghost use Rattle.std.specs.Option.{option_map};
ghost use Rattle.words_script.specs.Names.{is_digit};
ghost use Rattle.script_table.specs.Words.{is_number, value_of, signal_number, signal_of, with_parts, parts_of, parts_ahead, set_of, answer_among, answer_of, is_register};

use words_numbers::{GREATEST_NUMBER, Res, SigSet};

fn is_digit(byte: u8) -> bool
    ensures { result ≡ is_digit byte }
{
    b'0' <= byte && byte <= b'9'
}

fn are_digits(word: &[u8]) -> bool
    ensures { result ≡ list_all is_digit word.now }
{
    word.iter().all(|c| b'0' <= *c && *c <= b'9')
}

/// Whether the word is a number: one digit or more.
pub fn is_number(word: &[u8]) -> bool
    ensures { result ≡ is_number word.now }
{
    !word.is_empty() && are_digits(word)
}

/// The value of digits, of which there are at most 18; `None` also where there are more.
#[inline(always)]
pub fn short_number(word: &[u8]) -> Option<u64>
    ensures { IfSome result (λ n. (is_number word.now ≡ true) × (n ≡ value_of word.now)) }
{
    if word.is_empty() {
        return None;
    }
    let mut value = 0u64;
    for c in word {
        if !is_digit(*c) || 100_000_000_000_000_000 <= value {
            return None;
        }
        value = value * 10 + (*c - b'0') as u64;
    }
    Some(value)
}

// In 64 bits, for which a cap of the language's greatest number leaves room for one more digit.
#[inline(always)]
fn small_value(word: &[u8], high: u64) -> u64
    requires { high ≤ 1_000_000_000_000_000_000 }
    ensures { result ≡ min (high + 1) (value_of word.now) }
{
    let mut value = 0u64;
    for c in word {
        value = (value * 10 + c.saturating_sub(b'0') as u64).min(high + 1);
    }
    value
}

/// The value of digits, of which there may be any number, or `high + 1` where it is above `high`.
#[inline(always)]
pub fn capped_value(word: &[u8], high: u64) -> u128
    ensures { result ≡ min (high + 1) (value_of word.now) }
{
    if high <= GREATEST_NUMBER {
        small_value(word, high) as u128
    } else {
        wide_value(word, high)
    }
}

// The same for any cap.
#[inline(never)]
fn wide_value(word: &[u8], high: u64) -> u128
    ensures { result ≡ min (high + 1) (value_of word.now) }
{
    let mut value = 0u128;
    for c in word {
        value = (value * 10 + c.saturating_sub(b'0') as u128).min(high as u128 + 1);
    }
    value
}

// The number of a signal, 0 to 31, without a leading zero.
fn signal_number(digits: &[u8]) -> Option<u8>
    ensures number { result ≡ signal_number digits.now }
    ensures range { IfSome result (λ sig. sig ≤ 31) }
{
    match digits {
        [digit] => if is_digit(*digit) {
            Some(*digit - b'0')
        } else {
            None
        },
        [tens, digit] => two_digits(*tens, *digit),
        _ => None,
    }
}

fn two_digits(tens: u8, digit: u8) -> Option<u8>
    ensures number { result ≡ signal_number (tens ∷ digit ∷ []) }
    ensures range { IfSome result (λ sig. sig ≤ 31) }
{
    if b'1' <= tens && tens <= b'3' && is_digit(digit) {
        let sig = (tens - b'0') * 10 + (digit - b'0');
        if sig <= 31 {
            return Some(sig);
        }
    }
    None
}

/// The number of a signal by its name, `rt0` to `rt31`; `None` exactly where the word is none of them.
pub fn signal_of(word: &[u8]) -> Option<u8>
    ensures number { result ≡ signal_of word.now }
    ensures range { IfSome result (λ sig. sig ≤ 31) }
{
    match word {
        [r, t, digits @ ..] => if *r == b'r' && *t == b't' {
            signal_number(digits)
        } else {
            None
        },
        _ => None,
    }
}

// How many bytes stand before the first comma.
fn part_len(word: &[u8]) -> usize
    ensures len { result ≡ prefix_len (λ c. not (c == 44)) word.now }
    ensures bound { result ≤ length word.now }
{
    word.iter().take_while(|c| **c != b',').count()
}

// The first part before a comma, and what follows it, where there is a comma.
fn first_part(word: &[u8]) -> (&[u8], Option<&[u8]>)
    ensures parts { parts_of word.now ≡ result.0.now ∷ parts_ahead (option_map (λ r. r.now) result.1) }
    ensures shorter { IfSome result.1 (λ r. length r.now < length word.now) }
{
    let len = part_len(word);
    if len < word.len() {
        (&word[..len], Some(&word[len + 1..]))
    } else {
        (&word[..len], None)
    }
}

// The signals that are named between commas.
fn named_signals(word: &[u8]) -> Option<SigSet>
    ensures { result ≡ with_parts 0 (parts_of word.now) }
{
    let mut set = SigSet::new(0);
    let mut ahead = Some(word);
    while let Some(rest) = ahead {
        let (part, more) = first_part(rest);
        set = set.insert(signal_of(part)?);
        ahead = more;
    }
    Some(set)
}

/// A set of signals: `all`, `none`, or signals between commas; `None` exactly where the word is no such set.
pub fn set_of(word: &[u8]) -> Option<SigSet>
    ensures { result ≡ set_of word.now }
{
    if word == b"all".as_slice() {
        Some(SigSet::new(u32::MAX))
    } else if word == b"none".as_slice() {
        Some(SigSet::new(0))
    } else {
        named_signals(word)
    }
}

static ANSWERS: [Res; 11] = [
    Res::Zero,
    Res::Again,
    Res::Busy,
    Res::Deadlk,
    Res::Intr,
    Res::Inval,
    Res::Msgsize,
    Res::Overflow,
    Res::Perm,
    Res::Srch,
    Res::Timedout,
];

// The first of these answers whose text the word is.
fn answer_among(answers: &[Res], word: &[u8]) -> Option<Res>
    ensures { result ≡ answer_among answers.now word.now }
{
    match answers {
        [] => None,
        [answer, rest @ ..] => if word == answer.text().as_bytes() {
            Some(*answer)
        } else {
            answer_among(rest, word)
        },
    }
}

/// The answer of a call by its text; `None` exactly where the word is no such text.
pub fn answer_of(word: &[u8]) -> Option<Res>
    ensures { result ≡ answer_of word.now }
{
    answer_among(&ANSWERS, word)
}

/// Whether the word is `reg`, the value of the frame's register.
pub fn is_register(word: &[u8]) -> bool
    ensures { result ≡ is_register word.now }
{
    word == b"reg".as_slice()
}
