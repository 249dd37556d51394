//! Long runs of generated scripts.
ghost use Rattle.std.specs.Prelude.{◌≡◌, ◌≤◌, ◌+◌, ◌^◌};
ghost use Rattle.script_generator.specs.Generated.{script_of};
ghost use Rattle.rules_flat_code.specs.Runnable.{IsRunnable};
ghost use Rattle.rules_machine.specs.Promises.{busy_between};
ghost use Rattle.rules_machine.specs.WellFormed.{IsWellFormed};
ghost use Rattle.tool_answers.specs.Answer.{GivesAnswer, closing_lines, soak_answer};
ghost use Rattle.tool_answers.specs.Statuses.{IsWithoutSource};

use crate::runs::print_soak;
use parts_io::Sink;
use parts_steps::Steps;
use script_generator::make;
use std::alloc::Global;
use std::sync::ledger::Ledger;
use tool_answers::Status;
use words_numbers::Tick;
use words_script::Script;

// Runs a script, and writes its closing lines.
fn soak_script<K: Sink, L: Ledger>(
    alloc: Global,
    script: &Script,
    horizon: Tick,
    sink: &mut K,
    steps: &mut Steps<L>,
) -> Status
    requires runnable { IsRunnable script.now }
    requires well_formed { IsWellFormed script.now }
    requires limit { horizon ≤ 10 ^ 18 }
    ensures gives { GivesAnswer K.text K.faults (record { status = Status.Done; text = closing_lines script.now horizon }) result sink.old sink.new }
    ensures kind { IsWithoutSource result }
    ensures busy { steps.new ≤ steps.old + busy_between script.now 0 horizon + 1 }
{
    match print_soak(alloc, script, horizon, sink, steps) {
        Ok(false) => Status::Done,
        Ok(true) => Status::WriteFault,
        Err(_) => Status::OutOfMemory,
    }
}

/// Runs the script of a number, and writes its closing lines.
pub fn soak<K: Sink, L: Ledger>(
    alloc: Global,
    seed: u64,
    horizon: Tick,
    sink: &mut K,
    steps: &mut Steps<L>,
) -> Status
    requires seed { seed ≤ 10 ^ 18 }
    requires limit { horizon ≤ 10 ^ 18 }
    ensures gives { GivesAnswer K.text K.faults (soak_answer seed horizon) result sink.old sink.new }
    ensures kind { IsWithoutSource result }
    ensures busy { steps.new ≤ steps.old + busy_between (script_of seed) 0 horizon + 1 }
{
    match make(alloc, seed) {
        Ok(script) => soak_script(alloc, &script, horizon, sink, steps),
        Err(_) => Status::OutOfMemory,
    }
}
