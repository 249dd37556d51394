//! What a line of a head names.
ghost use Rattle.std.specs.Prelude.{◌≡◌, ◌∷◌, [], ◌==◌, length, true, false, Some, slice_get, option_to_list, codes, MatchOption, MatchResult};
ghost use Rattle.script_lex.specs.Words.{line_words};
ghost use Rattle.tool_audit.specs.Head.{operand_faults, word_faults, line_faults, said_line, in_numbers};

use crate::{HeadFault, Limits, NamedServer};
use script_lex::{Line, Words};
use script_table::{capped_value, is_number};
use std::marker::Model;
use words_numbers::GREATEST_NUMBER;
use words_script::Name;

/// The words of a `server` line behind its keyword.
#[derive(Clone, Copy)]
pub(crate) struct Operands<'a> {
    name: &'a [u8],
    period: &'a [u8],
    budget: &'a [u8],
    max: &'a [u8],
}

// Four words; None exactly where there is another number of them.
fn four_words<'a>(mut words: Words<'a>) -> Option<Operands<'a>>
    ensures { MatchOption result
        ((length words.entry.words == 4) ≡ false)
        (λ o. words.entry.words ≡ o.name.now ∷ o.period.now ∷ o.budget.now ∷ o.max.now ∷ []) }
{
    let name = words.next_word()?;
    let period = words.next_word()?;
    let budget = words.next_word()?;
    let max = words.next_word()?;
    match words.next_word() {
        Some(_) => None,
        None => Some(Operands {
            name: name.bytes,
            period: period.bytes,
            budget: budget.bytes,
            max: max.bytes,
        }),
    }
}

// The least fault of the spelling of the operands.
fn spelling_fault(o: &Operands<'_>) -> Option<HeadFault>
    ensures { result ≡ slice_get (operand_faults
        (o.now.name.now ∷ o.now.period.now ∷ o.now.budget.now ∷ o.now.max.now ∷ [])) 0 }
{
    if !(is_number(o.period) && (is_number(o.budget) && is_number(o.max))) {
        return Some(HeadFault::BadNumber);
    }
    match Name::try_new(o.name) {
        None => Some(HeadFault::BadName),
        Some(_) => None,
    }
}

/// A line that names a server, whose words are spelled right. Contracts see its numbers, of any size.
#[derive(Drop)]
pub(crate) struct Statement<'a> {
    line: u32,
    words: Operands<'a>,
}

impl<'a> Model for Statement<'a> {
    ghost use Rattle.std.specs.Prelude.{◌≡◌, true};
    ghost use Rattle.words_script.specs.Names.{is_name};
    ghost use Rattle.tool_audit.specs.Head.{Said};
    ghost use Rattle.tool_audit.specs.StatementView.{said};

    ghost Value = { Said };

    ghost view = { said };

    ghost invariant = { λ s. is_name s.words.name.now ≡ true };
}

impl<'a> Statement<'a> {
    /// The number of the line, from 1.
    pub(crate) fn line(&self) -> u32
        ensures { result ≡ self.now.line }
    {
        self.line
    }

    /// The name of the server's thread.
    pub(crate) fn name(&self) -> &'a [u8]
        ensures { result.now ≡ self.now.server.name }
    {
        self.words.name
    }

    /// The server; `None` exactly where a number is above 10^18.
    pub(crate) fn server(&self) -> Option<NamedServer>
        ensures { MatchOption result
            (in_numbers self.now.server.limits ≡ false)
            (λ s. (in_numbers self.now.server.limits ≡ true) × (s ≡ self.now.server)) }
    {
        let period = capped_value(self.words.period, GREATEST_NUMBER);
        let budget = capped_value(self.words.budget, GREATEST_NUMBER);
        let max = capped_value(self.words.max, GREATEST_NUMBER);
        let greatest = GREATEST_NUMBER as u128;
        if period > greatest || (budget > greatest || max > greatest) {
            return None;
        }
        let name = Name::try_new(self.words.name)?;
        Some(NamedServer {
            name,
            limits: Limits {
                period: period as u64,
                budget: budget as u64,
                max: max as u64,
            },
        })
    }
}

// What a line with the keyword `server` names.
fn read_words<'a>(line: u32, words: Words<'a>) -> Result<Statement<'a>, HeadFault>
    ensures { MatchResult result
        (λ s. (word_faults (codes "server" ∷ words.entry.words) ≡ [])
        × (s ∷ [] ≡ said_line line (codes "server" ∷ words.entry.words)))
        (λ kind. slice_get (word_faults (codes "server" ∷ words.entry.words)) 0 ≡ Some kind) }
{
    match four_words(words) {
        None => Err(HeadFault::WordCount),
        Some(words) => match spelling_fault(&words) {
            Some(kind) => Err(kind),
            None => Ok(Statement { line, words }),
        },
    }
}

/// What a line names, or its least fault of phase 1.
pub(crate) fn read_line<'a>(line: Line<'a>) -> Result<Option<Statement<'a>>, HeadFault>
    ensures { MatchResult result
        (λ s. (line_faults line.entry.bytes.now ≡ [])
        × (option_to_list s ≡ said_line line.entry.number (line_words line.entry.bytes.now)))
        (λ kind. slice_get (line_faults line.entry.bytes.now) 0 ≡ Some kind) }
{
    if line.has_bad_byte() {
        return Err(HeadFault::BadByte);
    }
    let mut words = line.words();
    match words.next_word() {
        None => Ok(None),
        Some(first) => {
            if first.bytes != b"server".as_slice() {
                return Err(HeadFault::UnknownWord);
            }
            match read_words(line.number, words) {
                Err(kind) => Err(kind),
                Ok(s) => Ok(Some(s)),
            }
        }
    }
}
