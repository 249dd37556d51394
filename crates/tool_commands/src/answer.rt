//! The answer of each command.
ghost use Rattle.std.specs.Prelude.{◌≡◌, ◌≤◌, ◌+◌, ℕ, false, length};
ghost use Rattle.script_generator.specs.Generated.{script_of};
ghost use Rattle.rules_machine.specs.Promises.{busy_between};
ghost use Rattle.tool_answers.specs.Answer.{GivesAnswer, text_answer};
ghost use Rattle.tool_answers.specs.Command.{limit_of, reads, IsWithinLimit};
ghost use Rattle.tool_answers.specs.Few.{DoubleStepsAreFew, RoundsAreFew, StepsAreFew};
ghost use Rattle.tool_answers.specs.Statuses.{IsWithoutSource};

use parts_io::Sink;
use parts_steps::Steps;
use std::alloc::Global;
use std::sync::ledger::Ledger;
use tool_answers::{Command, Status};
use tool_runs::{check_text, detail_text, run_text, show_text, soak};
use tool_texts::{audit_text, tell_generated, tell_responses, upgrade_text};

/// Carries out a command on a text that its limit allows, which is the empty one where it reads nothing.
pub(crate) fn answer_text<K: Sink, L: Ledger>(
    alloc: Global,
    command: &Command,
    text: &[u8],
    sink: &mut K,
    steps: &mut Steps<L>,
) -> Status
    requires short { length text.now ≤ limit_of command.now }
    requires limit { IsWithinLimit command.now }
    ensures gives { GivesAnswer K.text K.faults (text_answer command.now text.now) result sink.old sink.new }
    ensures kind { reads command.now ≡ false → IsWithoutSource result }
    ensures busy { (n : ℕ) → command.now ≡ Command.Run n → StepsAreFew n text.now steps.old steps.new }
    ensures shows { (n : ℕ) → command.now ≡ Command.Show n → StepsAreFew n text.now steps.old steps.new }
    ensures details { (n : ℕ) → command.now ≡ Command.Detail n → DoubleStepsAreFew n text.now steps.old steps.new }
    ensures rounds { (n : ℕ) → command.now ≡ Command.ResponseTimes n → RoundsAreFew n text.now steps.old steps.new }
    ensures soaks { (seed n : ℕ) → command.now ≡ Command.Soak seed n → steps.new ≤ steps.old + busy_between (script_of seed) 0 n + 1 }
{
    match *command {
        Command::Run(horizon) => run_text(alloc, text, horizon, sink, steps),
        Command::Show(horizon) => show_text(alloc, text, horizon, sink, steps),
        Command::Detail(horizon) => detail_text(alloc, text, horizon, sink, steps),
        Command::Check(horizon) => check_text(alloc, text, horizon, sink, steps),
        Command::Audit => audit_text(alloc, text, sink),
        Command::Upgrade => upgrade_text(alloc, text, sink),
        Command::ResponseTimes(bound) => tell_responses(alloc, text, bound, sink, steps),
        Command::Gen(seed) => tell_generated(alloc, seed, sink),
        Command::Soak(seed, horizon) => soak(alloc, seed, horizon, sink, steps),
    }
}
