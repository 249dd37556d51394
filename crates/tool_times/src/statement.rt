//! What a line declares.
ghost use Rattle.std.specs.Prelude.{◌≡◌, ◌∷◌, [], ◌==◌, length, true, false, Some, slice_get, option_to_list, codes, MatchOption, MatchResult};
ghost use Rattle.script_lex.specs.Words.{line_words};
ghost use Rattle.words_script.specs.Names.{is_name};
ghost use Rattle.tool_times.specs.Read.{operand_faults, word_faults, line_faults, said_line, in_ranges};
ghost use Rattle.tool_times.specs.Tasks.{IsTask};

use crate::{Task, TaskFault};
use script_lex::{Line, Words};
use script_table::{capped_value, is_number};
use std::marker::Model;
use words_numbers::Prio;
use words_script::Name;

/// The words of a `task` line behind its keyword.
#[derive(Clone, Copy)]
pub(crate) struct Operands<'a> {
    name: &'a [u8],
    priority: &'a [u8],
    cost: &'a [u8],
    period: &'a [u8],
    blocking: &'a [u8],
}

// Five words; None exactly where there is another number of them.
fn five_words<'a>(mut words: Words<'a>) -> Option<Operands<'a>>
    ensures { MatchOption result
        ((length words.entry.words == 5) ≡ false)
        (λ o. words.entry.words ≡ o.name.now ∷ o.priority.now ∷ o.cost.now ∷ o.period.now ∷ o.blocking.now ∷ []) }
{
    let name = words.next_word()?;
    let priority = words.next_word()?;
    let cost = words.next_word()?;
    let period = words.next_word()?;
    let blocking = words.next_word()?;
    match words.next_word() {
        Some(_) => None,
        None => Some(Operands {
            name: name.bytes,
            priority: priority.bytes,
            cost: cost.bytes,
            period: period.bytes,
            blocking: blocking.bytes,
        }),
    }
}

// The least fault of the spelling of the operands.
fn spelling_fault(o: &Operands<'_>) -> Option<TaskFault>
    ensures { result ≡ slice_get (operand_faults
        (o.now.name.now ∷ o.now.priority.now ∷ o.now.cost.now ∷ o.now.period.now ∷ o.now.blocking.now ∷ [])) 0 }
{
    if !(is_number(o.priority)
        && (is_number(o.cost) && (is_number(o.period) && is_number(o.blocking))))
    {
        return Some(TaskFault::BadNumber);
    }
    match Name::try_new(o.name) {
        None => Some(TaskFault::BadName),
        Some(_) => None,
    }
}

/// A line that declares a task, whose words are spelled right. Contracts see its numbers, of any size.
#[derive(Drop)]
pub(crate) struct Statement<'a> {
    line: u32,
    words: Operands<'a>,
}

impl<'a> Model for Statement<'a> {
    ghost use Rattle.std.specs.Prelude.{◌≡◌, true};
    ghost use Rattle.words_script.specs.Names.{is_name};
    ghost use Rattle.tool_times.specs.Read.{Said};
    ghost use Rattle.tool_times.specs.StatementView.{said};

    ghost Value = { Said };

    ghost view = { said };

    ghost invariant = { λ s. is_name s.words.name.now ≡ true };
}

impl<'a> Statement<'a> {
    /// The number of the line, from 1.
    pub(crate) fn line(&self) -> u32
        ensures { result ≡ self.now.line }
    {
        self.line
    }

    /// The name that is declared.
    pub(crate) fn name(&self) -> &'a [u8]
        ensures { result.now ≡ self.now.task.name }
    {
        self.words.name
    }

    /// The task; `None` exactly where a number lies out of its range.
    pub(crate) fn task(&self) -> Option<Task>
        ensures { MatchOption result
            (in_ranges self.now.task ≡ false)
            (λ t. (in_ranges self.now.task ≡ true) × (t ≡ self.now.task) × IsTask t) }
    {
        let priority = capped_value(self.words.priority, 255);
        let cost = capped_value(self.words.cost, 1_000_000);
        let period = capped_value(self.words.period, 1_000_000_000);
        let blocking = capped_value(self.words.blocking, 1_000_000);
        if priority > 255 || (cost < 1 || cost > 1_000_000) {
            return None;
        }
        if (period < 1 || period > 1_000_000_000) || blocking > 1_000_000 {
            return None;
        }
        let priority = Prio::try_new(priority as u8)?;
        let name = Name::try_new(self.words.name)?;
        Some(Task {
            name,
            priority,
            cost: cost as u32,
            period: period as u32,
            blocking: blocking as u32,
        })
    }
}

// What a line with the keyword `task` declares.
fn read_words<'a>(line: u32, words: Words<'a>) -> Result<Statement<'a>, TaskFault>
    ensures { MatchResult result
        (λ s. (word_faults (codes "task" ∷ words.entry.words) ≡ [])
        × (s ∷ [] ≡ said_line line (codes "task" ∷ words.entry.words)))
        (λ kind. slice_get (word_faults (codes "task" ∷ words.entry.words)) 0 ≡ Some kind) }
{
    match five_words(words) {
        None => Err(TaskFault::WordCount),
        Some(words) => match spelling_fault(&words) {
            Some(kind) => Err(kind),
            None => Ok(Statement { line, words }),
        },
    }
}

/// What a line declares, or its least fault of phase 1.
pub(crate) fn read_line<'a>(line: Line<'a>) -> Result<Option<Statement<'a>>, TaskFault>
    ensures { MatchResult result
        (λ s. (line_faults line.entry.bytes.now ≡ [])
        × (option_to_list s ≡ said_line line.entry.number (line_words line.entry.bytes.now)))
        (λ kind. slice_get (line_faults line.entry.bytes.now) 0 ≡ Some kind) }
{
    if line.has_bad_byte() {
        return Err(TaskFault::BadByte);
    }
    let mut words = line.words();
    match words.next_word() {
        None => Ok(None),
        Some(first) => {
            if first.bytes != b"task".as_slice() {
                return Err(TaskFault::UnknownWord);
            }
            match read_words(line.number, words) {
                Err(kind) => Err(kind),
                Ok(s) => Ok(Some(s)),
            }
        }
    }
}
