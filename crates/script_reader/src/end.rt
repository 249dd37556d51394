//! Why a text gave no script.
use script_table::FaultKind;
use std::alloc::{AllocError, AllocFailed};
use std::error::Error;
use std::fmt;

/// Why a text gave no script.
#[derive(Clone, Copy, Debug, PartialEq, Eq)]
pub enum ScriptEnd {
    /// The least fault of the text: its line, from 1, and its kind.
    Fault(u32, FaultKind),
    /// Memory ran out; nothing is said of the text.
    OutOfMemory,
}

impl fmt::Display for ScriptEnd {
    ghost use Rattle.std.specs.Prelude.{Some};
    ghost use Rattle.script_reader.specs.Ends.{text_of};

    ghost output = { λ e. Some (text_of e) };

    fn fmt<W: fmt::Write>(&self, f: &mut fmt::Formatter<W>) -> fmt::Result {
        match self {
            ScriptEnd::Fault(line, kind) => write!(f, "line {line}: {kind}"),
            ScriptEnd::OutOfMemory => f.write_str("out of memory"),
        }
    }
}

impl Error for ScriptEnd {}

impl From<AllocError> for ScriptEnd {
    ghost use Rattle.std.specs.Prelude.{◌≡◌};
    ghost use Rattle.script_reader.specs.declared.end.ScriptEnd.TheVariants.{OutOfMemory};

    ghost from_gives = { λ _ e. e ≡ OutOfMemory };

    fn from(_: AllocError) -> Self {
        ScriptEnd::OutOfMemory
    }
}

impl<T: Drop> From<AllocFailed<T>> for ScriptEnd {
    ghost use Rattle.std.specs.Prelude.{◌≡◌};
    ghost use Rattle.script_reader.specs.declared.end.ScriptEnd.TheVariants.{OutOfMemory};

    ghost from_gives = { λ _ e. e ≡ OutOfMemory };

    fn from(_: AllocFailed<T>) -> Self {
        ScriptEnd::OutOfMemory
    }
}
