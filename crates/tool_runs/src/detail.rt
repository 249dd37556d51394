//! The trace of a run, with the facts that change.
ghost use Rattle.std.specs.Prelude.{◌≡◌, ◌≤◌, ◌+◌, ◌*◌, ◌^◌, length};
ghost use Rattle.script_table.specs.Table.{patterns};
ghost use Rattle.script_table.specs.Read.{read};
ghost use Rattle.rules_flat_code.specs.Runnable.{IsRunnable};
ghost use Rattle.rules_machine.specs.Promises.{busy_between};
ghost use Rattle.rules_machine.specs.WellFormed.{IsWellFormed};
ghost use Rattle.rules_facts.specs.Detail.{detail};
ghost use Rattle.kernel_leaps.specs.Shown.{HasFewObjects};
ghost use Rattle.tool_answers.specs.Answer.{GivesAnswer, detail_answer};
ghost use Rattle.tool_answers.specs.Few.{DoubleStepsAreFew};

use crate::refused::refuse;
use kernel_leaps::{FactTexts, Kernel};
use parts_io::Sink;
use parts_steps::Steps;
use script_reader::{Script, read_script};
use std::alloc::Global;
use std::sync::ledger::Ledger;
use tool_answers::Status;
use words_numbers::Tick;

// Runs a script from its first instant to the horizon, and writes its trace with the facts that change. From the open kernel and its texts
// on, nothing takes memory.
fn tell_detail<K: Sink, L: Ledger>(
    alloc: Global,
    script: &Script,
    horizon: Tick,
    sink: &mut K,
    steps: &mut Steps<L>,
) -> Status
    requires runnable { IsRunnable script.now }
    requires well_formed { IsWellFormed script.now }
    requires few { HasFewObjects script.now }
    requires limit { horizon ≤ 10 ^ 18 }
    ensures gives { GivesAnswer K.text K.faults (record { status = Status.Done; text = detail script.now horizon }) result sink.old sink.new }
    ensures busy { steps.new ≤ steps.old + 2 * busy_between script.now 0 horizon + 2 }
{
    let Ok(kernel) = Kernel::open(alloc, script) else {
        return Status::OutOfMemory;
    };
    let Ok(mut texts) = FactTexts::open(alloc, script) else {
        return Status::OutOfMemory;
    };
    match kernel.detail(script, horizon, &mut texts, sink, steps) {
        Ok(()) => Status::Done,
        Err(_) => Status::WriteFault,
    }
}

/// Reads a script, runs it, and writes its trace with the facts that change.
pub fn detail_text<K: Sink, L: Ledger>(
    alloc: Global,
    text: &[u8],
    horizon: Tick,
    sink: &mut K,
    steps: &mut Steps<L>,
) -> Status
    requires short { length text.now ≤ 1_048_576 }
    requires limit { horizon ≤ 10 ^ 18 }
    ensures gives { GivesAnswer K.text K.faults (detail_answer horizon (read patterns text.now)) result sink.old sink.new }
    ensures busy { DoubleStepsAreFew horizon text.now steps.old steps.new }
{
    match read_script(alloc, text) {
        Ok(script) => tell_detail(alloc, &script, horizon, sink, steps),
        Err(end) => refuse(&end, sink),
    }
}
