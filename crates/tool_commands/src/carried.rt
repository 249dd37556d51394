//! What is answered to what was read.
ghost use Rattle.std.specs.Prelude.{◌≡◌, ◌≤◌, ◌+◌, ◌⊎◌, ℕ, false, IfErr, IfOk, length};
ghost use Rattle.script_generator.specs.Generated.{script_of};
ghost use Rattle.rules_machine.specs.Promises.{busy_between};
ghost use Rattle.tool_answers.specs.Answer.{Told, SinkFaults, text_answer};
ghost use Rattle.tool_answers.specs.Command.{limit_of, reads, IsWithinLimit};
ghost use Rattle.tool_answers.specs.Few.{DoubleStepsAreFew, RoundsAreFew, StepsAreFew};
ghost use Rattle.tool_answers.specs.Statuses.{IsWithoutSource};
ghost use Rattle.tool_commands.specs.Ended.{end_answer, IsOfEnd};

use crate::answer::answer_text;
use parts_io::{ReadEnd, Sink};
use parts_steps::Steps;
use std::alloc::Global;
use std::sync::ledger::Ledger;
use tool_answers::{Command, Status, put_text};

// Tells what ended the reading of a source before its end.
fn tell_end<K: Sink>(sink: &mut K, end: ReadEnd) -> Status
    ensures status { IsOfEnd end result }
    ensures told { Told result (end_answer end) (K.text sink.old) (K.text sink.new) }
    ensures faults { SinkFaults result (K.faults sink.old) (K.faults sink.new) }
    ensures unchanged { (result ≡ Status.ReadFault) ⊎ (result ≡ Status.OutOfMemory) → sink.new ≡ sink.old }
{
    match end {
        ReadEnd::ReadFault => Status::ReadFault,
        ReadEnd::TooLong => put_text(sink, b"too long\n", Status::TooLong),
        ReadEnd::OutOfMemory => Status::OutOfMemory,
    }
}

/// Carries out a command on what was read for it.
pub(crate) fn carry_out<K: Sink, L: Ledger>(
    alloc: Global,
    command: &Command,
    read: Result<Vec<u8>, ReadEnd>,
    sink: &mut K,
    steps: &mut Steps<L>,
) -> Status
    requires short { IfOk read (λ bytes. length bytes.items ≤ limit_of command.now) }
    requires limit { IsWithinLimit command.now }

    // The answer is that to the text, or it tells what ended the reading.
    ensures told { IfOk read (λ bytes. Told result (text_answer command.now bytes.items) (K.text sink.old) (K.text sink.new)) }
    ensures kind { IfOk read (λ _. reads command.now ≡ false → IsWithoutSource result) }
    ensures no_fault { IfOk read (λ _. result ≡ Status.ReadFault → ⊥) }
    ensures ended { IfErr read (λ end. IsOfEnd end result) }
    ensures end_told { IfErr read (λ end. Told result (end_answer end) (K.text sink.old) (K.text sink.new)) }

    ensures faults { SinkFaults result (K.faults sink.old) (K.faults sink.new) }
    ensures unchanged { (result ≡ Status.ReadFault) ⊎ (result ≡ Status.OutOfMemory) → sink.new ≡ sink.old }

    ensures busy { IfOk read (λ bytes. (n : ℕ) → command.now ≡ Command.Run n → StepsAreFew n bytes.items steps.old steps.new) }
    ensures shows { IfOk read (λ bytes. (n : ℕ) → command.now ≡ Command.Show n → StepsAreFew n bytes.items steps.old steps.new) }
    ensures details { IfOk read (λ bytes. (n : ℕ) → command.now ≡ Command.Detail n → DoubleStepsAreFew n bytes.items steps.old steps.new) }
    ensures rounds { IfOk read (λ bytes. (n : ℕ) → command.now ≡ Command.ResponseTimes n → RoundsAreFew n bytes.items steps.old steps.new) }
    ensures soaks { IfOk read (λ _. (seed n : ℕ) → command.now ≡ Command.Soak seed n
        → steps.new ≤ steps.old + busy_between (script_of seed) 0 n + 1) }
    ensures idle { IfErr read (λ _. steps.new ≡ steps.old) }
{
    match read {
        Ok(bytes) => answer_text(alloc, command, bytes.as_slice(), sink, steps),
        Err(end) => tell_end(sink, end),
    }
}
