//! The line of a refused text.
ghost use Rattle.std.specs.Prelude.{◌≡◌, ◌≤◌, ◌+◌, ◌++◌, [], Some, length};
ghost use Rattle.script_table.specs.Faults as faults;
ghost use Rattle.tool_audit.specs.Answer.{breach_text};
ghost use Rattle.tool_audit.specs.Faults as head_faults;
ghost use Rattle.tool_times.specs.Faults as task_faults;
ghost use Rattle.tool_answers.specs.Message.{refused_line};

use arrayvec::ArrayVec;
use parts_text::{add, add_number};
use script_table::FaultKind;
use tool_audit::{Breach, HeadFault};
use tool_times::TaskFault;

/// Room for the longest line of a fault.
pub type Message = ArrayVec<u8, 128>;

fn fault_line(line: u32, number: u8, name: &str) -> Message
    requires { length name.now ≤ 13 }
    ensures { result.items ≡ refused_line line number name.now }
{
    let mut message = ArrayVec::new();
    add(&mut message, b"refused ");
    add_number(&mut message, line as u64);
    add(&mut message, b" ");
    add_number(&mut message, number as u64);
    add(&mut message, b" ");
    add(&mut message, name.as_bytes());
    add(&mut message, b"\n");
    message
}

// The name of a kind of fault is short.
fn name_of(kind: FaultKind) -> &'static str
    ensures name { result.now ≡ faults.name_of kind }
    ensures short { length result.now ≤ 13 }
{
    kind.name()
}

// The same of a text of tasks.
fn task_name_of(kind: TaskFault) -> &'static str
    ensures name { result.now ≡ task_faults.name_of kind }
    ensures short { length result.now ≤ 13 }
{
    kind.name()
}

// The same of a head of servers.
fn head_name_of(kind: HeadFault) -> &'static str
    ensures name { result.now ≡ head_faults.name_of kind }
    ensures short { length result.now ≤ 13 }
{
    kind.name()
}

/// The line of a script's fault: its line, its number and its name.
pub fn refused_line(line: u32, kind: FaultKind) -> Message
    ensures { result.items ≡ refused_line line (faults.number_of kind) (faults.name_of kind) }
{
    fault_line(line, kind.number(), name_of(kind))
}

/// The line of the fault of a text of tasks: its line, its number and its name.
pub fn refused_task_line(line: u32, kind: TaskFault) -> Message
    ensures { result.items ≡ refused_line line (task_faults.number_of kind) (task_faults.name_of kind) }
{
    fault_line(line, kind.number(), task_name_of(kind))
}

/// The line of the fault of a head of servers: its line, its number and its name.
pub fn refused_head_line(line: u32, kind: HeadFault) -> Message
    ensures { result.items ≡ refused_line line (head_faults.number_of kind) (head_faults.name_of kind) }
{
    fault_line(line, kind.number(), head_name_of(kind))
}

/// The line of a broken rule: its line and the rule.
pub fn breach_line(breach: Breach) -> Message
    ensures { result.items ≡ breach_text (Some breach) }
{
    let mut message = ArrayVec::new();
    add(&mut message, b"breach ");
    add_number(&mut message, breach.line as u64);
    add(&mut message, b" ");
    add_number(&mut message, breach.rule as u64);
    add(&mut message, b"\n");
    message
}
