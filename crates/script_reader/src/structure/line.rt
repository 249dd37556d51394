//! The least fault of phase 1 of a line.
ghost use Rattle.std.specs.Prelude.{◌≡◌, None, Some, IfSome};
ghost use Rattle.std.specs.Option.{option_map};
ghost use Rattle.script_lex.specs.Words.{line_words};
ghost use Rattle.script_table.specs.Faults.{least_kind};
ghost use Rattle.script_table.specs.Patterns.{rows_of};
ghost use Rattle.script_table.specs.LineFaults.{fitting_some, unknown_faults, faults_by};
ghost use Rattle.script_table.specs.Structure.{line_faults, place_of_row};

use crate::structure::blocks::Blocks;
use crate::structure::statement::Statement;
use script_lex::{Line, Words};
use script_table::{FaultKind, Table, any_agrees, lesser_first};

fn unknown_fault(table: &Table, words: &Words<'_>) -> Option<FaultKind>
    ensures { result ≡ least_kind (unknown_faults (rows_of table.now) words.now.words) }
{
    let mut first = words.again();
    match first.next_word() {
        None => None,
        Some(_) => if any_agrees(table, words) {
            Some(FaultKind::WordCount)
        } else {
            Some(FaultKind::UnknownWord)
        },
    }
}

fn words_fault(table: &Table, line: &Line<'_>, said: &Option<Statement<'_>>) -> Option<FaultKind>
    requires { IfSome said.now (λ s. s.words ≡ line_words line.now.bytes.now) }
    ensures { result
        ≡ least_kind (faults_by (option_map (λ s. s.row) said.now) (rows_of table.now) (line_words line.now.bytes.now)) }
{
    match said {
        None => unknown_fault(table, &line.words()),
        Some(s) => s.spelling_fault(),
    }
}

fn here_fault(blocks: &Blocks, said: &Option<Statement<'_>>) -> Option<FaultKind>
    ensures { result ≡ least_kind (place_of_row (Some blocks.now) (option_map (λ s. s.row) said.now)) }
{
    match said {
        None => None,
        Some(s) => blocks.fault(s.form(), s.bar()),
    }
}

/// The least fault of phase 1 of a line, where it is known what the line says.
pub(crate) fn line_fault(
    table: &Table,
    line: &Line<'_>,
    said: &Option<Statement<'_>>,
    blocks: &Blocks,
) -> Option<FaultKind>
    requires words { IfSome said.now (λ s. s.words ≡ line_words line.now.bytes.now) }
    requires row { option_map (λ s. s.row) said.now ≡ fitting_some (rows_of table.now) (line_words line.now.bytes.now) }
    ensures { result ≡ least_kind (line_faults (rows_of table.now) (Some blocks.now) line.now.bytes.now) }
{
    if line.has_bad_byte() {
        return Some(FaultKind::BadByte);
    }
    lesser_first(words_fault(table, line, said), here_fault(blocks, said))
}
