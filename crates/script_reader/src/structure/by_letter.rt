//! The patterns of a table by the first byte of a line's first word.
ghost use Rattle.std.specs.Prelude.{ℕ, ◌≡◌, ◌∷◌, List, map, IfOk, IfSome};
ghost use Rattle.std.specs.Option.{option_map};
ghost use Rattle.script_table.specs.Patterns.{row_of, rows_of};
ghost use Rattle.script_table.specs.LineFaults.{fitting_row, fitting_some};
ghost use Rattle.script_reader.specs.ByLetter.{begins, Serves};

use crate::structure::statement::Statement;
use script_lex::Words;
use script_table::{Pattern, Table, fitting_pattern};
use std::alloc::{AllocError, Global};
use std::marker::Model;

fn begins(word: &[u8], byte: u8) -> bool
    ensures { result ≡ begins byte word.now }
{
    match word {
        [] => false,
        [first, ..] => byte == *first,
    }
}

// The patterns from the first one on that a line may have which begins with this byte.
fn from_first(patterns: &'static [Pattern], byte: u8) -> &'static [Pattern]
    ensures { (cs : List ℕ) (ws : List (List ℕ))
        → fitting_row (map row_of result.now) ((byte ∷ cs) ∷ ws) ≡ fitting_row (map row_of patterns.now) ((byte ∷ cs) ∷ ws) }
{
    match patterns {
        [] => patterns,
        [pattern, rest @ ..] => if begins(pattern.keyword, byte) {
            patterns
        } else {
            from_first(rest, byte)
        },
    }
}

// The patterns up to the last one that a line may have which begins with this byte.
fn to_last(patterns: &'static [Pattern], byte: u8) -> &'static [Pattern]
    ensures { (cs : List ℕ) (ws : List (List ℕ))
        → fitting_row (map row_of result.now) ((byte ∷ cs) ∷ ws) ≡ fitting_row (map row_of patterns.now) ((byte ∷ cs) ∷ ws) }
{
    match patterns {
        [] => patterns,
        [rest @ .., pattern] => if begins(pattern.keyword, byte) {
            patterns
        } else {
            to_last(rest, byte)
        },
    }
}

// The patterns from the first to the last that a line may have which begins with this byte.
fn between(patterns: &'static [Pattern], byte: u8) -> &'static [Pattern]
    ensures { (cs : List ℕ) (ws : List (List ℕ))
        → fitting_row (map row_of result.now) ((byte ∷ cs) ∷ ws) ≡ fitting_row (map row_of patterns.now) ((byte ∷ cs) ∷ ws) }
{
    to_last(from_first(patterns, byte), byte)
}

fn narrowed(table: &Table, byte: u8) -> Table
    ensures { Serves (rows_of table.now) byte result }
{
    Table {
        declarations: between(table.declarations, byte),
        steps: between(table.steps, byte),
        calls: between(table.calls, byte),
    }
}

/// A table, and a narrower one for each small letter with which a line may begin. Contracts see the rows of the table.
#[derive(Drop)]
pub(crate) struct ByLetter {
    table: Table,
    narrower: Vec<Table>,
}

impl Model for ByLetter {
    ghost use Rattle.std.specs.Prelude.{List};
    ghost use Rattle.script_table.specs.Patterns.{Row, rows_of};
    ghost use Rattle.script_reader.specs.ByLetter.{ServeFrom};

    ghost Value = { List Row };

    ghost view = { λ p. rows_of p.table };

    ghost invariant = { λ p. ServeFrom (rows_of p.table) 97 p.narrower.items };
}

impl ByLetter {
    pub(crate) fn new(alloc: Global, table: &Table) -> Result<ByLetter, AllocError>
        ensures { IfOk result (λ p. p ≡ rows_of table.now) }
    {
        let mut narrower = Vec::new(alloc);
        for byte in b'a'..=b'z' {
            narrower.push(narrowed(table, byte))?;
        }
        Ok(ByLetter {
            table: *table,
            narrower,
        })
    }

    /// The whole table.
    pub(crate) fn table(&self) -> &Table
        ensures { rows_of result.now ≡ self.now }
    {
        &self.table
    }

    fn of_byte(&self, byte: u8) -> &Table
        ensures { Serves self.now byte result.now }
    {
        if b'a' <= byte {
            let place = (byte - b'a') as usize;
            if place < self.narrower.len() {
                return &self.narrower[place];
            }
        }
        &self.table
    }

    // The table for a line that begins with this word.
    #[inline(always)]
    fn of_word(&self, word: &[u8]) -> &Table
        ensures { (ws : List (List ℕ)) → fitting_row (rows_of result.now) (word.now ∷ ws) ≡ fitting_row self.now (word.now ∷ ws) }
    {
        match word {
            [] => &self.table,
            [byte, ..] => self.of_byte(*byte),
        }
    }

    /// What a line of these words says: `None` exactly where no pattern agrees with the line and has its number of words.
    #[inline(always)]
    pub(crate) fn statement<'a>(&self, line: u32, mut words: Words<'a>) -> Option<Statement<'a>>
        ensures row { option_map (λ s. s.row) result ≡ fitting_some self.now words.entry.words }
        ensures line { IfSome result (λ s. (s.line ≡ line) × (s.words ≡ words.entry.words)) }
    {
        let first = words.next_word()?;
        match fitting_pattern(self.of_word(first.bytes), first.bytes, &words) {
            None => None,
            Some(fitting) => Some(Statement::new(line, fitting, &words)),
        }
    }
}
