//! The lines of a text, each with its number.
ghost use Rattle.std.specs.Prelude.{◌≡◌, ◌≤◌, ◌<◌, ◌+◌, ◌∷◌, [], ◌==◌, not, length, take, MatchOption};
ghost use Rattle.std.specs.List.{prefix_len};
ghost use Rattle.script_lex.specs.Lines.{lines_of};

use crate::Line;
use crate::stops::line_marks;
use std::marker::Model;

// The first line without its end, and what follows that end.
#[inline(always)]
fn first_line(text: &[u8], len: usize) -> (&[u8], &[u8])
    requires len { len ≡ prefix_len (λ c. not (c == 10)) text.now }
    requires bound { len ≤ length text.now }
    requires some { 0 < length text.now }
    ensures lines { lines_of text.now ≡ result.0.now ∷ lines_of result.1.now }
    ensures shorter { length result.1.now < length text.now }
    ensures bytes { result.0.now ≡ take len text.now }
    ensures count { (length result.0.now ≡ len) × (len ≤ length text.now) }
{
    if len < text.len() {
        (&text[..len], &text[len + 1..])
    } else {
        (&text[..len], &text[len..])
    }
}

/// The lines of a text that are still ahead. Contracts see the list of them, and the number of the
/// first; the lines of a text are numbered from 1.
#[derive(Drop)]
pub struct Lines<'a> {
    rest: &'a [u8],
    number: u32,
}

impl<'a> Model for Lines<'a> {
    ghost use Rattle.std.specs.Prelude.{◌≤◌, ◌<◌, ◌+◌, length};
    ghost use Rattle.script_lex.specs.Lines.{lines_of, Ahead};

    ghost Value = { Ahead };

    ghost view = { λ l. record { number = l.number; lines = lines_of l.rest.now } };

    ghost invariant = { λ l. (0 < l.number) × (l.number + length l.rest.now ≤ 67_108_865) };
}

impl<'a> Lines<'a> {
    /// All lines of a text of at most 2^26 bytes.
    pub fn new(text: &'a [u8]) -> Lines<'a>
        requires { length text.now ≤ 67_108_864 }
        ensures { result ≡ record { number = 1; lines = lines_of text.now } }
    {
        Lines {
            rest: text,
            number: 1,
        }
    }

    /// The number of the next line, or of one past the last.
    pub fn next_number(&self) -> u32
        ensures { result ≡ self.now.number }
    {
        self.number
    }

    /// The same lines ahead once more.
    pub fn again(&self) -> Lines<'a>
        ensures { result ≡ self.now }
    {
        Lines {
            rest: self.rest,
            number: self.number,
        }
    }

    /// The next line; `None` exactly at the end of the text, where nothing changes.
    #[inline(always)]
    pub fn next_line(&mut self) -> Option<Line<'a>>
        ensures line { MatchOption result (self.old.lines ≡ []) (λ l. self.old.lines ≡ l.bytes.now ∷ self.new.lines) }
        ensures number { MatchOption result (self.new ≡ self.old)
            (λ l. (l.number ≡ self.old.number) × (self.new.number ≡ self.old.number + 1)) }
    {
        if self.rest.is_empty() {
            return None;
        }
        let ahead = self.rest;
        let found = line_marks(ahead);
        let (bytes, rest) = first_line(ahead, found.len);
        let number = self.number;
        self.rest = rest;
        self.number = number + 1;
        Some(Line {
            number,
            bytes,
            ahead,
            comment_at: found.comment_at as u32,
            is_bad: found.is_bad,
        })
    }
}
