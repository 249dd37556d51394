//! The servers of a head.
ghost use Rattle.std.specs.Prelude.{◌≡◌, ◌≤◌, ◌+◌, [], length, map, MatchResult};
ghost use Rattle.script_lex.specs.Lines.{lines_of};
ghost use Rattle.tool_audit.specs.Head.{in_ranges, phase_one, said_from, phase_two, phase_three, servers_of};
ghost use Rattle.tool_audit.specs.Ends.{EndsBy};
ghost use Rattle.tool_audit.specs.Watch.{watched};

use crate::statement::{Statement, read_line};
use crate::watched::ServerWatch;
use crate::{AuditEnd, HeadFault, Limits};
use indexmap::IndexSet;
use script_lex::Lines;
use std::alloc::Global;

const MOST_SERVERS: usize = 256;

// Phase 1: each line by itself.
pub(crate) fn statements<'a>(alloc: Global, text: &'a [u8]) -> Result<Vec<Statement<'a>>, AuditEnd>
    requires { length text.now ≤ 67_108_864 }
    ensures { MatchResult result
        (λ v. (phase_one 1 (lines_of text.now) ≡ []) × (v.items ≡ said_from 1 (lines_of text.now)))
        (λ e. EndsBy e (phase_one 1 (lines_of text.now))) }
{
    let mut statements = Vec::new(alloc);
    let mut lines = Lines::new(text);
    while let Some(line) = lines.next_line() {
        let number = line.number;
        match read_line(line) {
            Err(kind) => return Err(AuditEnd::Fault(number, kind)),
            Ok(None) => {}
            Ok(Some(statement)) => statements.push(statement)?,
        }
    }
    Ok(statements)
}

// Puts in the names of these lines, of which none may stand twice.
fn put_names<'a>(
    names: &mut IndexSet<&'a [u8]>,
    statements: &[Statement<'a>],
) -> Result<(), AuditEnd>
    requires { names.old.keys ≡ [] }
    ensures { MatchResult result
        (λ _. phase_two [] statements.now ≡ [])
        (λ e. EndsBy e (phase_two [] statements.now)) }
{
    for s in statements {
        if !names.insert(s.name())? {
            return Err(AuditEnd::Fault(s.line(), HeadFault::DuplicateName));
        }
    }
    Ok(())
}

// Phase 2: no name stands twice.
pub(crate) fn check_names<'a>(alloc: Global, statements: &[Statement<'a>]) -> Result<(), AuditEnd>
    ensures { MatchResult result
        (λ _. phase_two [] statements.now ≡ [])
        (λ e. EndsBy e (phase_two [] statements.now)) }
{
    let mut names: IndexSet<&'a [u8]> = IndexSet::new(alloc);
    put_names(&mut names, statements)
}

fn are_in_ranges(s: &Limits) -> bool
    ensures { result ≡ in_ranges s.now }
{
    0 < s.budget && (s.budget <= s.period && (1 <= s.max && s.max <= 16))
}

// Phase 3: the numbers.
pub(crate) fn watches(
    alloc: Global,
    statements: &[Statement<'_>],
) -> Result<Vec<ServerWatch>, AuditEnd>
    ensures { MatchResult result
        (λ v. (phase_three [] statements.now ≡ []) × (v.items ≡ map watched (servers_of statements.now)))
        (λ e. EndsBy e (phase_three [] statements.now)) }
{
    let mut each = Vec::new(alloc);
    for s in statements {
        let Some(server) = s.server() else {
            return Err(AuditEnd::Fault(s.line(), HeadFault::NumberRange));
        };
        if each.len() >= MOST_SERVERS {
            return Err(AuditEnd::Fault(s.line(), HeadFault::TooMany));
        }
        if !are_in_ranges(&server.limits) {
            return Err(AuditEnd::Fault(s.line(), HeadFault::ServerRange));
        }
        each.push(ServerWatch::new(server))?;
    }
    Ok(each)
}
