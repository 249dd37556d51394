//! A text that is written at once.
ghost use Rattle.std.specs.Prelude.{◌≡◌, ◌⊎◌};
ghost use Rattle.tool_answers.specs.Answer.{GivesAnswer, HasText};

use crate::Status;
use parts_io::Sink;

/// Writes a text at once. The answer is the status that goes with it, or `WriteFault` where it was not written.
pub fn put_text<K: Sink>(sink: &mut K, text: &[u8], status: Status) -> Status
    requires { HasText status }
    ensures status { (result ≡ status) ⊎ (result ≡ Status.WriteFault) }
    ensures gives { GivesAnswer K.text K.faults (record { status = status; text = text.now }) result sink.old sink.new }
    ensures memory { result ≡ Status.OutOfMemory → ⊥ }
{
    match sink.write(text) {
        Ok(()) => status,
        Err(_) => Status::WriteFault,
    }
}
