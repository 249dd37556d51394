//! The response times of tasks.
ghost use Rattle.std.specs.Prelude.{◌≡◌, ◌≤◌, ◌+◌, ◌*◌, ◌^◌, length};
ghost use Rattle.tool_times.specs.Answer.{response_lines};
ghost use Rattle.tool_times.specs.Read.{read};
ghost use Rattle.tool_answers.specs.Answer.{GivesAnswer, responses_answer};
ghost use Rattle.tool_answers.specs.Few.{RoundsAreFew};

use parts_io::Sink;
use parts_steps::Steps;
use std::alloc::Global;
use std::sync::ledger::Ledger;
use tool_answers::{Status, put_text, refused_task_line};
use tool_report::put_responses;
use tool_times::{RtaEnd, Tasks};

// Writes the line of each task.
fn print_responses<K: Sink, L: Ledger>(
    tasks: &Tasks,
    bound: u64,
    sink: &mut K,
    steps: &mut Steps<L>,
) -> Status
    requires limit { bound ≤ 10 ^ 8 }
    ensures gives { GivesAnswer K.text K.faults (record { status = Status.Done; text = response_lines bound tasks.now }) result sink.old sink.new }
    ensures memory { result ≡ Status.OutOfMemory → ⊥ }
    ensures rounds { steps.new ≤ steps.old + length tasks.now * (bound + 1) }
{
    match put_responses(tasks, bound, sink, steps) {
        Ok(()) => Status::Done,
        Err(_) => Status::WriteFault,
    }
}

/// Reads tasks, and writes their response times. Once they are read, nothing takes memory.
pub fn tell_responses<K: Sink, L: Ledger>(
    alloc: Global,
    text: &[u8],
    bound: u64,
    sink: &mut K,
    steps: &mut Steps<L>,
) -> Status
    requires short { length text.now ≤ 67_108_864 }
    requires limit { bound ≤ 10 ^ 8 }
    ensures gives { GivesAnswer K.text K.faults (responses_answer bound (read text.now)) result sink.old sink.new }
    ensures rounds { RoundsAreFew bound text.now steps.old steps.new }
{
    match Tasks::open(alloc, text) {
        Ok(tasks) => print_responses(&tasks, bound, sink, steps),
        Err(RtaEnd::Fault(line, kind)) => {
            let message = refused_task_line(line, kind);
            put_text(sink, message.as_slice(), Status::Refused)
        }
        Err(RtaEnd::OutOfMemory) => Status::OutOfMemory,
    }
}
