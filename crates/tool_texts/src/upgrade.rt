//! Scripts as scripts of version 2.
ghost use Rattle.std.specs.Prelude.{◌≡◌, ◌≤◌, length};
ghost use Rattle.script_table.specs.Read.{read};
ghost use Rattle.script_table.specs.Table.{patterns};
ghost use Rattle.script_writer.specs.Canon.{canon};
ghost use Rattle.tool_answers.specs.Answer.{GivesAnswer, upgraded_answer, upgrade_answer};

use crate::generated::put_script;
use parts_io::Sink;
use script_reader::{Script, ScriptEnd, read_script};
use script_writer::canon_len;
use std::alloc::Global;
use tool_answers::{SCRIPT_LIMIT, Status, put_text, refused_line};

// Writes the canonical text of a script, where a script may be as long. It takes no memory.
fn put_upgraded<K: Sink>(script: &Script, sink: &mut K) -> Status
    ensures gives { GivesAnswer K.text K.faults (upgraded_answer (canon script.now)) result sink.old sink.new }
    ensures memory { result ≡ Status.OutOfMemory → ⊥ }
{
    if canon_len(script) > SCRIPT_LIMIT {
        return put_text(sink, b"too long\n", Status::TooLong);
    }
    put_script(script, sink)
}

/// Reads a script, and writes its canonical text as one of version 2.
pub fn upgrade_text<K: Sink>(alloc: Global, text: &[u8], sink: &mut K) -> Status
    requires short { length text.now ≤ 1_048_576 }
    ensures { GivesAnswer K.text K.faults (upgrade_answer (read patterns text.now)) result sink.old sink.new }
{
    match read_script(alloc, text) {
        Ok(script) => {
            let upgraded = Script {
                version: 2,
                quantum: script.quantum,
                decls: script.decls,
            };
            put_upgraded(&upgraded, sink)
        }
        Err(ScriptEnd::Fault(line, kind)) => {
            let message = refused_line(line, kind);
            put_text(sink, message.as_slice(), Status::Refused)
        }
        Err(ScriptEnd::OutOfMemory) => Status::OutOfMemory,
    }
}
