//! What the lines of a text say.
ghost use Rattle.std.specs.Prelude.{◌+◌, ◌≡◌, ◌≤◌, ◌∷◌, [], None, Some, MatchResult, length, option_to_list};
ghost use Rattle.std.specs.Option.{option_map};
ghost use Rattle.script_table.specs.Faults.{Fault, least, least_kind, fault};
ghost use Rattle.script_table.specs.Patterns.{rows_of};
ghost use Rattle.script_table.specs.Structure.{line_faults, said_line, said_from, behind_line, phase_one};
ghost use Rattle.script_reader.specs.Ends.{EndsBy};

use crate::ScriptEnd;
use crate::structure::blocks::Blocks;
use crate::structure::by_letter::ByLetter;
use crate::structure::line::line_fault;
use crate::structure::statement::Statement;
use script_lex::{Line, Lines};
use script_table::{FaultKind, Table};
use std::alloc::Global;

// What a line says, where it has no fault of phase 1.
fn read_line<'a>(
    patterns: &ByLetter,
    line: Line<'a>,
    blocks: &mut Blocks,
) -> Result<Option<Statement<'a>>, ScriptEnd>
    ensures { MatchResult result
        (λ s. (line_faults patterns.now (Some blocks.old) line.entry.bytes.now ≡ []) ×
        (option_to_list s ≡ said_line patterns.now line.entry.number line.entry.bytes.now) ×
        (Some blocks.new ≡ behind_line patterns.now (Some blocks.old) line.entry.bytes.now))
        (λ e. EndsBy e (option_map (fault 1 line.entry.number)
        (least_kind (line_faults patterns.now (Some blocks.old) line.entry.bytes.now)))) }
{
    let said = patterns.statement(line.number, line.words());
    if let Some(kind) = line_fault(patterns.table(), &line, &said, blocks) {
        return Err(ScriptEnd::Fault(line.number, kind));
    }
    match said {
        None => Ok(None),
        Some(s) => {
            blocks.pass(s.form())?;
            Ok(Some(s))
        }
    }
}

/// What the lines of a text say, and the number of the line behind the last.
#[derive(Drop)]
pub(crate) struct Reading<'a> {
    pub statements: Vec<Statement<'a>>,
    pub last: u32,
}

// What lines say by these patterns, where none has a fault of phase 1. So many statements have room at first.
#[inline(never)]
fn statements_by<'a>(
    alloc: Global,
    patterns: &ByLetter,
    room: usize,
    mut lines: Lines<'a>,
) -> Result<Reading<'a>, ScriptEnd>
    ensures { MatchResult result
        (λ v. (least (phase_one patterns.now lines.entry.number (Some []) lines.entry.lines) ≡ None) ×
        (v.statements.items ≡ said_from patterns.now lines.entry.number lines.entry.lines) ×
        (v.last ≡ lines.entry.number + length lines.entry.lines))
        (λ e. EndsBy e (least (phase_one patterns.now lines.entry.number (Some []) lines.entry.lines))) }
{
    let mut statements = Vec::with_capacity(alloc, room)?;
    let mut blocks = Blocks::new(alloc);
    while let Some(line) = lines.next_line() {
        if let Some(statement) = read_line(patterns, line, &mut blocks)? {
            statements.push(statement)?;
        }
    }
    if !blocks.is_empty() {
        return Err(ScriptEnd::Fault(lines.next_number(), FaultKind::Unclosed));
    }
    Ok(Reading {
        statements,
        last: lines.next_number(),
    })
}

/// What lines say, where none has a fault of phase 1. So many statements have room at first.
pub(crate) fn statements<'a>(
    alloc: Global,
    table: &Table,
    room: usize,
    lines: Lines<'a>,
) -> Result<Reading<'a>, ScriptEnd>
    ensures { MatchResult result
        (λ v. (least (phase_one (rows_of table.now) lines.entry.number (Some []) lines.entry.lines) ≡ None) ×
        (v.statements.items ≡ said_from (rows_of table.now) lines.entry.number lines.entry.lines) ×
        (v.last ≡ lines.entry.number + length lines.entry.lines))
        (λ e. EndsBy e (least (phase_one (rows_of table.now) lines.entry.number (Some []) lines.entry.lines))) }
{
    let patterns = ByLetter::new(alloc, table)?;
    statements_by(alloc, &patterns, room, lines)
}
