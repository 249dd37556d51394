//! What is shown of an instant of a run.
ghost use Rattle.std.specs.Prelude.{◌≡◌, ◌≤◌, ◌+◌, ◌^◌, length};
ghost use Rattle.script_table.specs.Table.{patterns};
ghost use Rattle.script_table.specs.Read.{read};
ghost use Rattle.rules_flat_code.specs.Runnable.{IsRunnable};
ghost use Rattle.rules_machine.specs.Promises.{busy_between};
ghost use Rattle.rules_machine.specs.WellFormed.{IsWellFormed};
ghost use Rattle.rules_facts.specs.Shown.{shown};
ghost use Rattle.kernel_leaps.specs.Shown.{HasFewObjects};
ghost use Rattle.tool_answers.specs.Answer.{GivesAnswer, show_answer};
ghost use Rattle.tool_answers.specs.Few.{StepsAreFew};

use crate::refused::refuse;
use crate::runs::soak_kernel;
use kernel_leaps::Kernel;
use parts_io::Sink;
use parts_steps::Steps;
use script_reader::{Script, read_script};
use std::alloc::Global;
use std::sync::ledger::Ledger;
use tool_answers::Status;
use words_numbers::Tick;

// Runs a script from its first instant to the horizon, telling nothing, and writes what is shown of it there. From the open kernel on,
// nothing takes memory.
fn tell_shown<K: Sink, L: Ledger>(
    alloc: Global,
    script: &Script,
    horizon: Tick,
    sink: &mut K,
    steps: &mut Steps<L>,
) -> Status
    requires runnable { IsRunnable script.now }
    requires well_formed { IsWellFormed script.now }
    requires few { HasFewObjects script.now }
    requires limit { horizon ≤ 10 ^ 18 }
    ensures gives { GivesAnswer K.text K.faults (record { status = Status.Done; text = shown script.now horizon }) result sink.old sink.new }
    ensures busy { steps.new ≤ steps.old + busy_between script.now 0 horizon + 1 }
{
    match Kernel::open(alloc, script) {
        Ok(mut kernel) => {
            soak_kernel(&mut kernel, horizon, steps);
            match kernel.show(script, sink) {
                Ok(()) => Status::Done,
                Err(_) => Status::WriteFault,
            }
        }
        Err(_) => Status::OutOfMemory,
    }
}

/// Reads a script, runs it, and writes what is shown of it at the horizon.
pub fn show_text<K: Sink, L: Ledger>(
    alloc: Global,
    text: &[u8],
    horizon: Tick,
    sink: &mut K,
    steps: &mut Steps<L>,
) -> Status
    requires short { length text.now ≤ 1_048_576 }
    requires limit { horizon ≤ 10 ^ 18 }
    ensures gives { GivesAnswer K.text K.faults (show_answer horizon (read patterns text.now)) result sink.old sink.new }
    ensures busy { StepsAreFew horizon text.now steps.old steps.new }
{
    match read_script(alloc, text) {
        Ok(script) => tell_shown(alloc, &script, horizon, sink, steps),
        Err(end) => refuse(&end, sink),
    }
}
