//! Scripts that are generated.
ghost use Rattle.std.specs.Prelude.{◌≡◌, ◌≤◌, ◌^◌};
ghost use Rattle.script_writer.specs.Canon.{canon};
ghost use Rattle.tool_answers.specs.Answer.{GivesAnswer, generated_answer};
ghost use Rattle.tool_answers.specs.Statuses.{IsWithoutSource};

use parts_io::Sink;
use script_generator::make;
use script_writer::write_script;
use std::alloc::Global;
use tool_answers::Status;
use words_script::Script;

/// Writes the canonical text of a script. It takes no memory.
pub(crate) fn put_script<K: Sink>(script: &Script, sink: &mut K) -> Status
    ensures gives { GivesAnswer K.text K.faults (record { status = Status.Done; text = canon script.now }) result sink.old sink.new }
    ensures kind { IsWithoutSource result }
    ensures memory { result ≡ Status.OutOfMemory → ⊥ }
{
    match write_script(script, sink) {
        Ok(()) => Status::Done,
        Err(_) => Status::WriteFault,
    }
}

/// Writes the canonical text of the script of a number.
pub fn tell_generated<K: Sink>(alloc: Global, seed: u64, sink: &mut K) -> Status
    requires limit { seed ≤ 10 ^ 18 }
    ensures gives { GivesAnswer K.text K.faults (generated_answer seed) result sink.old sink.new }
    ensures kind { IsWithoutSource result }
{
    match make(alloc, seed) {
        Ok(script) => put_script(&script, sink),
        Err(_) => Status::OutOfMemory,
    }
}
