//! What is answered to a text that is no script.
ghost use Rattle.std.specs.Prelude.{◌≡◌, Err, Result};
ghost use Rattle.words_script.specs.declared.decl.Script.{Script};
ghost use Rattle.script_table.specs.Faults.{Fault};
ghost use Rattle.script_reader.specs.Ends.{IsRefusal};
ghost use Rattle.tool_answers.specs.Answer.{Answer, GivesAnswer, fault_line};

use parts_io::Sink;
use script_reader::ScriptEnd;
use tool_answers::{Status, put_text, refused_line};

/// Writes the line of the fault of a text that is no script; nothing where there was no memory to read one. That is the answer of each
/// command that refuses such a text.
pub(crate) fn refuse<K: Sink>(end: &ScriptEnd, sink: &mut K) -> Status
    ensures { (found : Result Script Fault) → IsRefusal end.now found → (answer : Result Script Fault → Answer)
        → ((f : Fault) → answer (Err f) ≡ record { status = Status.Refused; text = fault_line f })
        → GivesAnswer K.text K.faults (answer found) result sink.old sink.new }
{
    match end {
        ScriptEnd::Fault(line, kind) => {
            let message = refused_line(*line, *kind);
            put_text(sink, message.as_slice(), Status::Refused)
        }
        ScriptEnd::OutOfMemory => Status::OutOfMemory,
    }
}
