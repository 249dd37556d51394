//! What a command reads.
ghost use Rattle.std.specs.Prelude.{◌≡◌, ◌≤◌, ◌+◌, List, ℕ, true, false, Err, IfOk, IsOk, OnOk, length};
ghost use Rattle.std.specs.Io.KnownBytes.{Consumes, IsAtEnd};
ghost use Rattle.parts_io.specs.Causes.{GrewBy, Rose};
ghost use Rattle.parts_io.specs.Whole.{TookAtMost};
ghost use Rattle.tool_answers.specs.Command.{limit_of, reads};

use parts_io::{ReadEnd, Source, read_whole};
use std::alloc::Global;
use tool_answers::Command;

/// The text that a command is about: the whole source, or none where the command reads nothing.
pub(crate) fn read_for<S: Source>(
    alloc: Global,
    command: &Command,
    source: &mut S,
) -> Result<Vec<u8>, ReadEnd>
    // the bytes that were taken, which are all where the command reads
    ensures whole { IfOk result (λ bytes. Consumes (S.rest source.old) (S.rest source.new) bytes.items) }
    ensures end { reads command.now ≡ true → OnOk result (IsAtEnd (S.rest source.new)) }
    ensures short { IfOk result (λ bytes. length bytes.items ≤ limit_of command.now) }
    ensures count { IfOk result (λ bytes. GrewBy (length bytes.items) (S.taken source.old) (S.taken source.new)) }

    // more bytes than the limit came before a fault
    ensures long { result ≡ Err ReadEnd.TooLong → GrewBy (limit_of command.now + 1) (S.taken source.old) (S.taken source.new) }
    ensures long_bytes { result ≡ Err ReadEnd.TooLong → (bytes : List ℕ) × (length bytes ≡ limit_of command.now + 1)
        × Consumes (S.rest source.old) (S.rest source.new) bytes }

    // a fault came before them
    ensures fault { result ≡ Err ReadEnd.ReadFault → Rose (S.faults source.old) (S.faults source.new) }
    ensures fault_bytes { result ≡ Err ReadEnd.ReadFault
        → TookAtMost (limit_of command.now) (S.rest source.old) (S.rest source.new) (S.taken source.old) (S.taken source.new) }
    ensures no_fault { (result ≡ Err ReadEnd.ReadFault → ⊥) → S.faults source.new ≡ S.faults source.old }
    ensures memory_bytes { result ≡ Err ReadEnd.OutOfMemory
        → TookAtMost (limit_of command.now + 1) (S.rest source.old) (S.rest source.new) (S.taken source.old) (S.taken source.new) }

    // what reads nothing leaves the source as it is
    ensures unread { reads command.now ≡ false → source.new ≡ source.old }
    ensures nothing { reads command.now ≡ false → IsOk result }
{
    if command.reads() {
        read_whole(alloc, source, command.limit())
    } else {
        Ok(Vec::new(alloc))
    }
}
