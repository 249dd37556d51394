//! The tasks of a text.
ghost use Rattle.std.specs.Prelude.{◌≡◌, ◌≤◌, ◌+◌, [], Ok, length, IfOk, IfErr, MatchResult};
ghost use Rattle.script_lex.specs.Lines.{lines_of};
ghost use Rattle.tool_times.specs.Read.{phase_one, said_from, phase_two, phase_three, tasks_of, read};
ghost use Rattle.tool_times.specs.Ends.{EndsBy, IsRefusal};

use crate::statement::{Statement, read_line};
use crate::{RtaEnd, TaskFault, Tasks};
use indexmap::IndexSet;
use script_lex::Lines;
use std::alloc::Global;

// What the lines of a text declare.
#[derive(Drop)]
struct Reading<'a> {
    statements: Vec<Statement<'a>>,
    // the number of the line behind the last
    behind: u32,
}

// Phase 1: each line by itself.
fn statements<'a>(alloc: Global, text: &'a [u8]) -> Result<Reading<'a>, RtaEnd>
    requires { length text.now ≤ 67_108_864 }
    ensures { MatchResult result
        (λ v. (phase_one 1 (lines_of text.now) ≡ []) × (v.statements.items ≡ said_from 1 (lines_of text.now))
        × (v.behind ≡ 1 + length (lines_of text.now)))
        (λ e. EndsBy e (phase_one 1 (lines_of text.now))) }
{
    let mut statements = Vec::new(alloc);
    let mut lines = Lines::new(text);
    while let Some(line) = lines.next_line() {
        let number = line.number;
        match read_line(line) {
            Err(kind) => return Err(RtaEnd::Fault(number, kind)),
            Ok(None) => {}
            Ok(Some(statement)) => statements.push(statement)?,
        }
    }
    Ok(Reading {
        statements,
        behind: lines.next_number(),
    })
}

// Phase 2: no name stands twice.
fn check_names(alloc: Global, statements: &[Statement<'_>]) -> Result<(), RtaEnd>
    ensures { MatchResult result
        (λ _. phase_two [] statements.now ≡ [])
        (λ e. EndsBy e (phase_two [] statements.now)) }
{
    let mut names = IndexSet::new(alloc);
    for s in statements {
        if !names.insert(s.name())? {
            return Err(RtaEnd::Fault(s.line(), TaskFault::DuplicateName));
        }
    }
    Ok(())
}

// Phase 3: the numbers, but not that there is a task.
fn tasks(alloc: Global, statements: &[Statement<'_>]) -> Result<Tasks, RtaEnd>
    ensures { MatchResult result
        (λ t. (phase_three [] statements.now ≡ []) × (t ≡ tasks_of statements.now))
        (λ e. EndsBy e (phase_three [] statements.now)) }
{
    let mut tasks = Tasks::new(alloc);
    for s in statements {
        let Some(task) = s.task() else {
            return Err(RtaEnd::Fault(s.line(), TaskFault::NumberRange));
        };
        if tasks.has_priority(task.priority) {
            return Err(RtaEnd::Fault(s.line(), TaskFault::SamePriority));
        }
        tasks.add(task)?;
    }
    Ok(tasks)
}

impl Tasks {
    /// The tasks that a text of at most 67,108,864 bytes says, in lines `task NAME PRIORITY COST PERIOD BLOCKING`.
    ///
    /// `Err(RtaEnd::Fault(line, kind))` comes exactly where the text has a fault: it is the least of all its faults, by phase,
    /// then line, then number. In the first phase each line is read by itself, in the second no name may stand twice, in
    /// the third the numbers lie in their ranges, no priority stands twice, and there is a task. `RtaEnd::OutOfMemory`
    /// may come for any text, and says nothing of it. The time is linear in the length of the text.
    pub fn open(alloc: Global, text: &[u8]) -> Result<Tasks, RtaEnd>
        requires { length text.now ≤ 67_108_864 }
        ensures tasks { IfOk result (λ t. read text.now ≡ Ok t) }
        ensures refusal { IfErr result (λ e. IsRefusal e (read text.now)) }
    {
        let reading = statements(alloc, text)?;
        check_names(alloc, reading.statements.as_slice())?;
        let tasks = tasks(alloc, reading.statements.as_slice())?;
        if reading.statements.is_empty() {
            return Err(RtaEnd::Fault(reading.behind, TaskFault::NoTask));
        }
        Ok(tasks)
    }
}
