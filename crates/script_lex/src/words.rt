//! The words of a line, each with its place.
ghost use Rattle.std.specs.Prelude.{◌≡◌, ◌≤◌, ◌+◌, ◌-◌, ◌==◌, ◌∷◌, [], length, take, drop, MatchOption, IfSome};
ghost use Rattle.std.specs.List.{prefix_len};
ghost use Rattle.script_lex.specs.Words.{words_of, places_of, is_blank};

use crate::stops::{Stop, run_len};
use std::marker::Model;

/// A word of a line, and its place: the word is the slice of the line that begins at byte `at`. The
/// first byte of a line has place 0.
#[derive(Clone, Copy)]
pub struct Word<'a> {
    pub bytes: &'a [u8],
    pub at: u32,
}

#[inline(always)]
fn is_blank(byte: u8) -> bool
    ensures { result ≡ is_blank byte }
{
    byte == b'\t' || byte == b' '
}

// How many of the first `len` bytes are blanks before any other.
#[inline(always)]
fn blanks(ahead: &[u8], len: usize) -> usize
    requires { len ≤ length ahead.now }
    ensures len { result ≡ prefix_len is_blank (take len ahead.now) }
    ensures bound { result ≤ len }
{
    let mut at = 0;
    while at < len && is_blank(ahead[at]) {
        at += 1;
    }
    at
}

// The first word among the first `len` bytes, which stand at `at`, and how many bytes are passed with it.
#[inline(always)]
fn first_word(ahead: &[u8], len: usize, at: u32) -> Option<(Word<'_>, usize)>
    requires room { len ≤ length ahead.now }
    requires place { at + len ≤ 67_108_864 }
    ensures words { MatchOption result (words_of (take len ahead.now) ≡ [])
        (λ r. words_of (take len ahead.now) ≡ r.0.bytes.now ∷ words_of (take (len - r.1) (drop r.1 ahead.now))) }
    ensures places { IfSome result
        (λ r. places_of at (take len ahead.now) ≡ r.0.at ∷ places_of (at + r.1) (take (len - r.1) (drop r.1 ahead.now))) }
    ensures bound { IfSome result (λ r. r.1 ≤ len) }
{
    let start = blanks(ahead, len);
    if start == len {
        return None;
    }
    let rest = &ahead[start..];
    let count = run_len(Stop::Blank, rest, len - start);
    let word = Word {
        bytes: &rest[..count],
        at: at + start as u32,
    };
    Some((word, start + count))
}

/// The words of a line that are still ahead. Contracts see the list of them, and beside it the list
/// of their places.
#[derive(Drop)]
pub struct Words<'a> {
    ahead: &'a [u8],
    // How many of those bytes the words are of.
    len: u32,
    at: u32,
}

impl<'a> Model for Words<'a> {
    ghost use Rattle.std.specs.Prelude.{◌≤◌, ◌+◌, length, take};
    ghost use Rattle.script_lex.specs.Words.{WordsAhead, words_of, places_of};

    ghost Value = { WordsAhead };

    ghost view = { λ l. record { words = words_of (take l.len l.ahead.now); places = places_of l.at (take l.len l.ahead.now) } };

    ghost invariant = { λ l. (l.len ≤ length l.ahead.now) × (l.at + l.len ≤ 67_108_864) };
}

impl<'a> Words<'a> {
    // The words of the first `len` bytes.
    #[inline(always)]
    pub(crate) fn of(ahead: &'a [u8], len: usize) -> Words<'a>
        requires { (len ≤ length ahead.now) × (len ≤ 67_108_864) }
        ensures { result ≡ record { words = words_of (take len ahead.now); places = places_of 0 (take len ahead.now) } }
    {
        Words {
            ahead,
            len: len as u32,
            at: 0,
        }
    }

    /// The words of these bytes, with their places there.
    #[inline(always)]
    pub fn in_bytes(bytes: &'a [u8]) -> Words<'a>
        requires { length bytes.now ≤ 67_108_864 }
        ensures { result ≡ record { words = words_of bytes.now; places = places_of 0 bytes.now } }
    {
        Words::of(bytes, bytes.len())
    }

    /// The bytes in which these words stand.
    #[inline(always)]
    pub fn bytes(&self) -> &'a [u8]
        ensures words { words_of result.now ≡ self.now.words }
        ensures bound { length result.now ≤ 67_108_864 }
    {
        &self.ahead[..self.len as usize]
    }

    /// Whether no word is ahead.
    #[inline(always)]
    pub fn is_over(&self) -> bool
        ensures { result ≡ (length self.now.words == 0) }
    {
        let len = self.len as usize;
        blanks(self.ahead, len) == len
    }

    /// The bytes from the first word on: where no blank is among them, they are that word, and no other is ahead.
    #[inline(always)]
    pub fn from_first(&self) -> &'a [u8]
        ensures { words_of result.now ≡ self.now.words }
    {
        let len = self.len as usize;
        let start = blanks(self.ahead, len);
        &self.ahead[start..len]
    }

    /// The next word; `None` exactly after the last one, and then nothing changes.
    #[inline(always)]
    pub fn next_word(&mut self) -> Option<Word<'a>>
        ensures word { MatchOption result (self.old.words ≡ []) (λ w. self.old.words ≡ w.bytes.now ∷ self.new.words) }
        ensures place { MatchOption result (self.new ≡ self.old) (λ w. self.old.places ≡ w.at ∷ self.new.places) }
    {
        match first_word(self.ahead, self.len as usize, self.at) {
            None => None,
            Some((word, passed)) => {
                self.ahead = &self.ahead[passed..];
                self.len -= passed as u32;
                self.at += passed as u32;
                Some(word)
            }
        }
    }

    /// The same words ahead once more.
    pub fn again(&self) -> Words<'a>
        ensures { result ≡ self.now }
    {
        Words {
            ahead: self.ahead,
            len: self.len,
            at: self.at,
        }
    }
}
