//! The lines of all tasks.
ghost use Rattle.std.specs.Prelude.{◌≡◌, ◌≤◌, ◌<◌, ◌+◌, ◌*◌, ◌^◌, length};
ghost use Rattle.parts_io.specs.Bytes.{WritesAll};
ghost use Rattle.parts_io.specs.Causes.{HasCause};
ghost use Rattle.tool_times.specs.Tasks.{task_at};
ghost use Rattle.tool_times.specs.Schedule.{finish_by};
ghost use Rattle.tool_times.specs.Answer.{task_line, response_lines};

use crate::line::task_line;
use parts_io::{Failed, Sink};
use parts_steps::Steps;
use std::sync::ledger::Ledger;
use tool_times::Tasks;

// Writes the line of task k, by one write.
fn put_response<K: Sink, L: Ledger>(
    tasks: &Tasks,
    k: u16,
    bound: u64,
    sink: &mut K,
    steps: &mut Steps<L>,
) -> Result<(), Failed>
    requires known { k < length tasks.now }
    requires small { bound ≤ 10 ^ 8 }
    ensures written { WritesAll (K.text sink.old) (K.text sink.new) result
        (task_line (task_at tasks.now k).name (finish_by bound tasks.now k)) }
    ensures cause { HasCause (K.faults sink.old) (K.faults sink.new) result }
    ensures rounds { steps.new ≤ steps.old + (bound + 1) }
{
    let response = tasks.response(k, bound, steps);
    let line = task_line(tasks.name(k), response);
    sink.write(line.as_slice())
}

/// Writes the line of each task, in the order of declaration: its response in ticks, or that there is none up to the bound.
///
/// Each line is one write. `Err` comes only where a write failed; then a part from the front of the lines was appended, and
/// nothing more is written. The steps are at most one more than the bound for each task. It takes no memory.
pub fn put_responses<K: Sink, L: Ledger>(
    tasks: &Tasks,
    bound: u64,
    sink: &mut K,
    steps: &mut Steps<L>,
) -> Result<(), Failed>
    requires { bound ≤ 10 ^ 8 }
    ensures written { WritesAll (K.text sink.old) (K.text sink.new) result (response_lines bound tasks.now) }
    ensures cause { HasCause (K.faults sink.old) (K.faults sink.new) result }
    ensures rounds { steps.new ≤ steps.old + length tasks.now * (bound + 1) }
{
    for k in 0..tasks.count() {
        match put_response(tasks, k, bound, sink, steps) {
            Ok(()) => {}
            Err(failed) => return Err(failed),
        }
    }
    Ok(())
}
