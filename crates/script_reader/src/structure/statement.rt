//! What a line says.
ghost use Rattle.std.specs.Prelude.{◌≡◌, ◌∷◌, map, IfSome};
ghost use Rattle.script_table.specs.Faults.{least_kind};
ghost use Rattle.script_table.specs.Patterns.{Keyword, spot_of};
ghost use Rattle.script_table.specs.LineFaults.{place_faults, spelling};
ghost use Rattle.script_table.specs.Ranges.{range_fault, word};
ghost use Rattle.script_table.specs.WordFaults.{AreFaultsIn};
ghost use Rattle.script_table.specs.Words.{value_of};

use script_lex::Words;
use script_table::{Bar, FaultKind, Fitting, Form, Pattern, Place, WordFaults, short_number};
use std::marker::Model;

/// The words of a line: the keyword that it begins with, and the bytes in which the others stand. Contracts see the list of all.
#[derive(Drop)]
pub(crate) struct LineWords<'a> {
    keyword: &'static [u8],
    operands: &'a [u8],
}

impl<'a> Model for LineWords<'a> {
    ghost use Rattle.std.specs.Prelude.{ℕ, List, ◌∷◌, ◌≤◌, length};
    ghost use Rattle.script_lex.specs.Words.{words_of};

    ghost Value = { List (List ℕ) };

    ghost view = { λ w. w.keyword.now ∷ words_of w.operands.now };

    ghost invariant = { λ w. length w.operands.now ≤ 67_108_864 };
}

impl<'a> LineWords<'a> {
    /// The word at a place; the empty one behind the last.
    pub(crate) fn word(&self, k: usize) -> &'a [u8]
        ensures { result.now ≡ word k self.now }
    {
        if k == 0 {
            return self.keyword;
        }
        nth(Words::in_bytes(self.operands), k - 1)
    }

    /// The number behind the keyword, where it is short and the only word there; `None` also where it is not.
    #[inline(always)]
    pub(crate) fn only_number(&self) -> Option<u64>
        ensures { IfSome result (λ n. n ≡ value_of (word 1 self.now)) }
    {
        short_number(Words::in_bytes(self.operands).from_first())
    }
}

#[inline(always)]
fn nth(mut words: Words<'_>, k: usize) -> &[u8]
    ensures { result.now ≡ word k words.entry.words }
{
    let mut left = k;
    while let Some(found) = words.next_word() {
        if left == 0 {
            return found.bytes;
        }
        left -= 1;
    }
    b"".as_slice()
}

/// A line with the pattern that it has, and what is wrong with its words by that pattern. The bytes are those behind its keyword.
#[derive(Drop)]
pub(crate) struct Statement<'a> {
    line: u32,
    faults: WordFaults,
    pattern: &'static Pattern,
    operands: &'a [u8],
}

impl<'a> Model for Statement<'a> {
    ghost use Rattle.std.specs.Prelude.{◌∷◌, ◌≤◌, length};
    ghost use Rattle.script_lex.specs.Words.{words_of};
    ghost use Rattle.script_table.specs.Structure.{Said};
    ghost use Rattle.script_table.specs.Patterns.{row_of};
    ghost use Rattle.script_table.specs.WordFaults.{AreFaultsIn};

    ghost Value = { Said };

    ghost view = { λ s. record {
      line = s.line;
      row = row_of s.pattern.now;
      words = s.pattern.now.keyword.now ∷ words_of s.operands.now;
    } };

    ghost invariant = { λ s. (length s.operands.now ≤ 67_108_864)
        × AreFaultsIn s.faults (row_of s.pattern.now).places (s.pattern.now.keyword.now ∷ words_of s.operands.now) };
}

impl<'a> Statement<'a> {
    ghost use Rattle.std.specs.Prelude.{◌∷◌};
    ghost use Rattle.script_table.specs.Patterns.{row_of};

    /// The line of this pattern, whose words behind the first are these.
    pub(crate) fn new(line: u32, fitting: Fitting, words: &Words<'a>) -> Statement<'a>
        requires { AreFaultsIn fitting.faults (row_of fitting.pattern.now).places (fitting.pattern.now.keyword.now ∷ words.now.words) }
        ensures { result ≡ record {
          line = line;
          row = row_of fitting.pattern.now;
          words = fitting.pattern.now.keyword.now ∷ words.now.words;
        } }
    {
        Statement {
            line,
            faults: fitting.faults,
            pattern: fitting.pattern,
            operands: words.bytes(),
        }
    }

    pub(crate) fn line(&self) -> u32
        ensures { result ≡ self.now.line }
    {
        self.line
    }

    pub(crate) fn form(&self) -> Form
        ensures { result ≡ self.now.row.form }
    {
        self.pattern.form
    }

    pub(crate) fn bar(&self) -> Bar
        ensures { result ≡ self.now.row.bar }
    {
        self.pattern.bar
    }

    /// The places behind the keyword.
    pub(crate) fn places(&self) -> &'static [Place]
        ensures { self.now.row.places ≡ Keyword (word 0 self.now.words) ∷ map spot_of result.now }
    {
        self.pattern.places
    }

    /// The words behind the keyword.
    pub(crate) fn operands(&self) -> Words<'a>
        ensures { self.now.words ≡ word 0 self.now.words ∷ result.words }
    {
        Words::in_bytes(self.operands)
    }

    #[inline(always)]
    pub(crate) fn words(&self) -> LineWords<'a>
        ensures { result ≡ self.now.words }
    {
        LineWords {
            keyword: self.pattern.keyword,
            operands: self.operands,
        }
    }

    /// The least kind of what is misspelled in the line.
    pub(crate) fn spelling_fault(&self) -> Option<FaultKind>
        ensures { result ≡ least_kind (place_faults spelling self.now.row.places self.now.words) }
    {
        self.faults.spelling
    }

    /// The least kind of what is out of its range in the line.
    pub(crate) fn range_fault(&self) -> Option<FaultKind>
        ensures { result ≡ least_kind (place_faults range_fault self.now.row.places self.now.words) }
    {
        self.faults.range
    }
}
