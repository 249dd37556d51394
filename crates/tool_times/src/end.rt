//! Why a text gave no tasks.
use crate::TaskFault;
use std::alloc::{AllocError, AllocFailed};
use std::error::Error;
use std::fmt;

/// Why a text gave no tasks.
#[derive(Clone, Copy, Debug, PartialEq, Eq)]
pub enum RtaEnd {
    /// The least fault of the text: its line, from 1, and its kind.
    Fault(u32, TaskFault),
    /// Memory ran out; nothing is said of the text.
    OutOfMemory,
}

impl fmt::Display for RtaEnd {
    ghost use Rattle.std.specs.Prelude.{Some};
    ghost use Rattle.tool_times.specs.Ends.{text_of};

    ghost output = { λ e. Some (text_of e) };

    fn fmt<W: fmt::Write>(&self, f: &mut fmt::Formatter<W>) -> fmt::Result {
        match self {
            RtaEnd::Fault(line, kind) => write!(f, "line {line}: {kind}"),
            RtaEnd::OutOfMemory => f.write_str("out of memory"),
        }
    }
}

impl Error for RtaEnd {}

impl From<AllocError> for RtaEnd {
    ghost use Rattle.std.specs.Prelude.{◌≡◌};
    ghost use Rattle.tool_times.specs.declared.end.RtaEnd.TheVariants.{OutOfMemory};

    ghost from_gives = { λ _ e. e ≡ OutOfMemory };

    fn from(_: AllocError) -> Self {
        RtaEnd::OutOfMemory
    }
}

impl<T: Drop> From<AllocFailed<T>> for RtaEnd {
    ghost use Rattle.std.specs.Prelude.{◌≡◌};
    ghost use Rattle.tool_times.specs.declared.end.RtaEnd.TheVariants.{OutOfMemory};

    ghost from_gives = { λ _ e. e ≡ OutOfMemory };

    fn from(_: AllocFailed<T>) -> Self {
        RtaEnd::OutOfMemory
    }
}
