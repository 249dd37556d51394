//! The trace of a run.
ghost use Rattle.std.specs.Prelude.{◌≡◌, ◌≤◌, ◌+◌, ◌^◌, length};
ghost use Rattle.script_table.specs.Table.{patterns};
ghost use Rattle.script_table.specs.Read.{read};
ghost use Rattle.rules_flat_code.specs.Runnable.{IsRunnable};
ghost use Rattle.rules_machine.specs.Machine.{trace};
ghost use Rattle.rules_machine.specs.Promises.{busy_between};
ghost use Rattle.rules_machine.specs.WellFormed.{IsWellFormed};
ghost use Rattle.tool_answers.specs.Answer.{GivesAnswer, run_answer};
ghost use Rattle.tool_answers.specs.Few.{StepsAreFew};

use crate::refused::refuse;
use crate::runs::print_run;
use parts_io::Sink;
use parts_steps::Steps;
use script_reader::{Script, read_script};
use std::alloc::Global;
use std::sync::ledger::Ledger;
use tool_answers::Status;
use words_numbers::Tick;

// Runs a script and prints its trace.
fn tell_trace<K: Sink, L: Ledger>(
    alloc: Global,
    script: &Script,
    horizon: Tick,
    sink: &mut K,
    steps: &mut Steps<L>,
) -> Status
    requires runnable { IsRunnable script.now }
    requires well_formed { IsWellFormed script.now }
    requires limit { horizon ≤ 10 ^ 18 }
    ensures gives { GivesAnswer K.text K.faults (record { status = Status.Done; text = trace script.now horizon }) result sink.old sink.new }
    ensures busy { steps.new ≤ steps.old + busy_between script.now 0 horizon + 1 }
{
    match print_run(alloc, script, horizon, sink, steps) {
        Ok(false) => Status::Done,
        Ok(true) => Status::WriteFault,
        Err(_) => Status::OutOfMemory,
    }
}

/// Reads a script, runs it and prints its trace.
pub fn run_text<K: Sink, L: Ledger>(
    alloc: Global,
    text: &[u8],
    horizon: Tick,
    sink: &mut K,
    steps: &mut Steps<L>,
) -> Status
    requires short { length text.now ≤ 1_048_576 }
    requires limit { horizon ≤ 10 ^ 18 }
    ensures gives { GivesAnswer K.text K.faults (run_answer horizon (read patterns text.now)) result sink.old sink.new }
    ensures busy { StepsAreFew horizon text.now steps.old steps.new }
{
    match read_script(alloc, text) {
        Ok(script) => tell_trace(alloc, &script, horizon, sink, steps),
        Err(end) => refuse(&end, sink),
    }
}
