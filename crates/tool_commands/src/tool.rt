//! The top call.
ghost use Rattle.std.specs.Prelude.{◌≡◌, ◌≤◌, ◌<◌, ◌+◌, ◌^◌, ◌⊎◌, List, ℕ, None, Some, Ok, map, string_bytes, IfSome, IsSome};
ghost use Rattle.std.specs.Io.KnownBytes.{Appends, IsAtEnd};
ghost use Rattle.parts_io.specs.Bytes.{AppendsPart};
ghost use Rattle.parts_io.specs.Causes.{Rose, GrewBy};
ghost use Rattle.parts_io.specs.Whole.{TookAtMost};
ghost use Rattle.script_table.specs.Table.{patterns};
ghost use Rattle.script_table.specs.Read.{read};
ghost use Rattle.rules_machine.specs.Machine.{bodies_of, trace};
ghost use Rattle.rules_machine.specs.Runs.{opening};
ghost use Rattle.laws_window.specs.Before.{RunsAsBefore};
ghost use Rattle.laws_window.specs.Window.{RunKeepsWindows};
ghost use Rattle.rules_bodies.specs.Next.{Place};
ghost use Rattle.script_writer.specs.Canon.{canon};
ghost use Rattle.script_writer.specs.Upgraded.{upgraded};
ghost use Rattle.laws_versions.specs.Versions.{RunsAlike};
ghost use Rattle.script_generator.specs.Generated.{script_of};
ghost use Rattle.words_script.specs.declared.decl.Script.{Script};
ghost use Rattle.tool_answers.specs.Command.{command, words_limit, Audits, Compares, HasSecondLimit, Divides, Generates, Reads};
ghost use Rattle.rules_machine.specs.Promises.{RunKeepsBudgets, RunStaysGood, busy_between};
ghost use Rattle.tool_commands.specs.Audited.{BreaksNoRule, BudgetsHold};
ghost use Rattle.tool_answers.specs.Few.{DoubleStepsAreFew, RoundsAreFew, StepsAreFew};
ghost use Rattle.tool_commands.specs.Spelled.{LinesHaveOneReading, RunHasSmallNumbers};
ghost use Rattle.laws_threads.specs.HeadRuns.{HeadRuns};
ghost use Rattle.tool_answers.specs.Answer.{answer, usage_line, too_long_line, no_trace_line, Told, SinkFaults};
ghost use Rattle.tool_answers.specs.Statuses.{IsWithoutSource};
ghost use Rattle.tool_commands.specs.Taken.{Answered, IsOfWhole, ReadToItsEnd, ReadWhole};

use crate::carried::carry_out;
use crate::read::read_for;
use parts_io::{Sink, Source};
use parts_steps::Steps;
use std::alloc::Global;
use std::sync::ledger::Ledger;
use tool_answers::{Command, Status, command_of_words, put_text};

// Writes the line that is told where the words are no command.
fn put_usage<K: Sink>(sink: &mut K) -> Status
    ensures status { (result ≡ Status.Usage) ⊎ (result ≡ Status.WriteFault) }
    ensures told { Told result (record { status = Status.Usage; text = usage_line }) (K.text sink.old) (K.text sink.new) }
    ensures faults { SinkFaults result (K.faults sink.old) (K.faults sink.new) }
    ensures unchanged { (result ≡ Status.ReadFault) ⊎ (result ≡ Status.OutOfMemory) → sink.new ≡ sink.old }
{
    put_text(sink, b"usage: pse52 COMMAND NUMBERS\n", Status::Usage)
}

/// Carries out the command of the words: reads the source, and writes to the sink.
///
/// `run N` reads the source whole, at most 1,048,576 bytes, and runs its script to tick N; the text is the trace of the list machine.
/// `show N` reads it so, and the text is what the lists and objects of that run are at tick N, with what is due then handled. `detail N`
/// reads it so, and the text is that trace with the facts that change behind the lines of each instant. `check N` reads it whole, at most
/// 67,108,864 bytes, splits it at its first line `%%` into a script and a trace, and tells whether the trace is the script's; `Differs`
/// comes with the first line that differs. `audit` reads it whole, at most 67,108,864 bytes, splits it so into a head of servers and a
/// trace, and tells whether the trace keeps their budgets; `Breach` comes with the first line that breaks a rule, and the least rule that
/// it breaks. `upgrade` reads it whole, at most 1,048,576 bytes, and writes the canonical text of its script as one of version 2. `rta N`
/// reads it whole, at most 67,108,864 bytes, and tells the least response times of its tasks, up to N ticks. `gen S` writes the canonical
/// text of the generated script of number S, and `soak S N` runs that script to tick N and writes the closing lines of its trace; these two
/// leave the source as it is, and answer `Done`, `WriteFault` or `OutOfMemory`. Where the words are no command the answer is `Usage`, or
/// `WriteFault` where its line could not be written; that takes no memory and no byte. Then come `ReadFault` or `TooLong`, by the bytes
/// read; then `NoTrace`, where `check` or `audit` finds no line `%%`, or `TooLong`, where the script in front of it has more than 1,048,576
/// bytes; then `Refused`, where the script, the text of tasks or the head of servers has a fault; then `TooLong`, where `upgrade` would
/// write more than 1,048,576 bytes; then the answer. `OutOfMemory` may come in place of any of these but `Usage`, before anything is
/// written. A fault of the source or the sink is answered only where its count of faults rose in this call. Nothing is written before the
/// source was read to its end, or to one byte more than the limit.
pub fn run_tool<S: Source, K: Sink, L: Ledger>(
    alloc: Global,
    words: &[String],
    source: &mut S,
    sink: &mut K,
    steps: &mut Steps<L>,
) -> Status
    // Where the source tells its bytes, the status and the text are those of the answer to the words and the bytes.
    ensures told { IfSome (S.rest source.old) (λ bytes.
        Told result (answer (map string_bytes words.now) bytes) (K.text sink.old) (K.text sink.new)) }

    // Whatever it tells, they are those of the answer to some bytes, as many as were taken; to these too steps and rounds are few, as below.
    ensures answered { Answered (map string_bytes words.now) result (S.rest source.old) (S.rest source.new)
        (S.taken source.old) (S.taken source.new) (K.text sink.old) (K.text sink.new) steps.old steps.new }

    // In the run of any script, each tick counts for the head of the highest list that is not empty, and for no other thread.
    ensures head_runs { (script : Script) → (k : ℕ) → HeadRuns script k }

    // Whatever bytes are read as a script: every state of its run is good, and in each the budgets of its servers are kept.
    ensures good { (bytes : List ℕ) (script : Script) → read patterns bytes ≡ Ok script → RunStaysGood script }
    ensures budgets { (bytes : List ℕ) (script : Script) → read patterns bytes ≡ Ok script → RunKeepsBudgets script }

    // So it is of the script of each number.
    ensures generated_good { (seed : ℕ) → RunStaysGood (script_of seed) }
    ensures generated_budgets { (seed : ℕ) → RunKeepsBudgets (script_of seed) }

    // At every instant that such a run can come to, its numbers are small, the serials too; and each line of its trace has one reading, which is what it says.
    ensures numbers { (bytes : List ℕ) (script : Script) → read patterns bytes ≡ Ok script → RunHasSmallNumbers script }
    ensures readings { (bytes : List ℕ) (script : Script) → read patterns bytes ≡ Ok script → LinesHaveOneReading script }

    // Where an audit is done, no line of the trace breaks a rule, and the law of the budget holds of its lines.
    ensures holds { (bytes : List ℕ) → command (map string_bytes words.now) ≡ Some Command.Audit → S.rest source.old ≡ Some bytes
        → result ≡ Status.Done → BudgetsHold bytes }

    // The trace of no script that is read breaks a rule, where no step sets a policy.
    ensures breaks_none { (bytes : List ℕ) (script : Script) → read patterns bytes ≡ Ok script → BreaksNoRule script }

    // In every window of a period a strict thread runs at most its budget of ticks at its high priority.
    ensures windows { (bytes : List ℕ) (script : Script) → read patterns bytes ≡ Ok script → RunKeepsWindows script }

    // A script as one of version 2 is read from its canonical text, and has the same events and closing lines. One of version 1 has the
    // run that it had before there were strict servers.
    ensures upgrades_read { (bytes : List ℕ) (script : Script) → read patterns bytes ≡ Ok script
        → read patterns (canon (upgraded script)) ≡ Ok (upgraded script) }
    ensures upgrades_alike { (script : Script) (n : ℕ) → RunsAlike (upgraded script) script n }
    ensures first_versions { (bytes : List ℕ) (script : Script) → read patterns bytes ≡ Ok script → script.version ≡ 1
        → RunsAsBefore (bodies_of script) (opening {P = Place} script) }

    // A run has at most one step more than there are eventful instants before its horizon, that of a detail at most twice as many, and the
    // response times of tasks at most one more than the bound for each task.
    ensures busy { (n : ℕ) (bytes : List ℕ) → command (map string_bytes words.now) ≡ Some (Command.Run n) → S.rest source.old ≡ Some bytes
        → StepsAreFew n bytes steps.old steps.new }
    ensures shows { (n : ℕ) (bytes : List ℕ) → command (map string_bytes words.now) ≡ Some (Command.Show n) → S.rest source.old ≡ Some bytes
        → StepsAreFew n bytes steps.old steps.new }
    ensures details { (n : ℕ) (bytes : List ℕ) → command (map string_bytes words.now) ≡ Some (Command.Detail n) → S.rest source.old ≡ Some bytes
        → DoubleStepsAreFew n bytes steps.old steps.new }
    ensures rounds { (n : ℕ) (bytes : List ℕ) → command (map string_bytes words.now) ≡ Some (Command.ResponseTimes n) → S.rest source.old ≡ Some bytes
        → RoundsAreFew n bytes steps.old steps.new }
    ensures soaks { (seed n : ℕ) → command (map string_bytes words.now) ≡ Some (Command.Soak seed n)
        → steps.new ≤ steps.old + busy_between (script_of seed) 0 n + 1 }

    // The words decide alone whether there is a command.
    ensures usage { result ≡ Status.Usage → command (map string_bytes words.now) ≡ None }
    ensures usage_text { result ≡ Status.Usage → Appends (K.text sink.old) (K.text sink.new) usage_line }
    ensures no_command { command (map string_bytes words.now) ≡ None
        → ((result ≡ Status.Usage) ⊎ (result ≡ Status.WriteFault)) × (source.new ≡ source.old) }
    ensures usage_part { command (map string_bytes words.now) ≡ None → result ≡ Status.WriteFault
        → AppendsPart (K.text sink.old) (K.text sink.new) usage_line }

    // What generates a script leaves the source as it is, and is done, or fails for its own reasons alone.
    ensures generates { Generates (command (map string_bytes words.now)) → IsWithoutSource result }
    ensures unread { Generates (command (map string_bytes words.now)) → source.new ≡ source.old }

    // Too long means that one byte more than the limit was taken, or that the script in front of a trace or the text to write is too long.
    ensures too_long { result ≡ Status.TooLong
        → GrewBy (words_limit (map string_bytes words.now) + 1) (S.taken source.old) (S.taken source.new)
        ⊎ (HasSecondLimit (command (map string_bytes words.now)) × ReadWhole (words_limit (map string_bytes words.now))
        (S.rest source.old) (S.rest source.new) (S.taken source.old) (S.taken source.new)) }
    ensures too_long_text { result ≡ Status.TooLong → Appends (K.text sink.old) (K.text sink.new) too_long_line }

    // Only a comparison ends in a difference, only an audit in a breach, and either of them without a trace.
    ensures checked { result ≡ Status.Differs → Compares (command (map string_bytes words.now)) }
    ensures audited { result ≡ Status.Breach → Audits (command (map string_bytes words.now)) }
    ensures divided { result ≡ Status.NoTrace → Divides (command (map string_bytes words.now)) }
    ensures no_trace_text { result ≡ Status.NoTrace → Appends (K.text sink.old) (K.text sink.new) no_trace_line }

    // What is told of a whole text comes only where all bytes were taken, which the limit allows; what reads nothing takes none.
    ensures read_whole { IsOfWhole result → Reads (command (map string_bytes words.now)) → IsAtEnd (S.rest source.new) }
    ensures whole_bytes { IsOfWhole result → TookAtMost (words_limit (map string_bytes words.now))
        (S.rest source.old) (S.rest source.new) (S.taken source.old) (S.taken source.new) }

    // A fault of reading comes before the byte past the limit, and nothing is read behind that byte.
    ensures fault_bytes { result ≡ Status.ReadFault
        → TookAtMost (words_limit (map string_bytes words.now))
        (S.rest source.old) (S.rest source.new) (S.taken source.old) (S.taken source.new) }
    ensures memory_bytes { result ≡ Status.OutOfMemory
        → TookAtMost (words_limit (map string_bytes words.now) + 1)
        (S.rest source.old) (S.rest source.new) (S.taken source.old) (S.taken source.new) }

    // A write failed where the words are no command that reads, or the source was read before, to its end or past the limit.
    ensures write_fault { result ≡ Status.WriteFault → Reads (command (map string_bytes words.now))
        → ReadToItsEnd (words_limit (map string_bytes words.now))
        (S.rest source.old) (S.rest source.new) (S.taken source.old) (S.taken source.new) }

    // A fault is answered only where it was counted, and no other is.
    ensures read_fault { result ≡ Status.ReadFault → Rose (S.faults source.old) (S.faults source.new) }
    ensures source_faults { (result ≡ Status.ReadFault → ⊥) → S.faults source.new ≡ S.faults source.old }
    ensures sink_faults { SinkFaults result (K.faults sink.old) (K.faults sink.new) }

    // A fault of reading and want of memory leave the sink as it was.
    ensures unchanged { (result ≡ Status.ReadFault) ⊎ (result ≡ Status.OutOfMemory) → sink.new ≡ sink.old }

    // Where nothing fails, the answer is given, or there was no memory.
    ensures complete { (bytes : List ℕ) → S.rest source.old ≡ Some bytes
        → (Rose (S.faults source.old) (S.faults source.new) → ⊥) → (Rose (K.faults sink.old) (K.faults sink.new) → ⊥)
        → ((result ≡ (answer (map string_bytes words.now) bytes).status)
        × Appends (K.text sink.old) (K.text sink.new) (answer (map string_bytes words.now) bytes).text)
        ⊎ ((result ≡ Status.OutOfMemory) × IsSome (command (map string_bytes words.now)) × (sink.new ≡ sink.old)) }
{
    let Some(command) = command_of_words(words) else {
        return put_usage(sink);
    };
    let read = read_for(alloc, &command, source);
    carry_out(alloc, &command, read, sink, steps)
}
