//! Why a head gave no audit.
use crate::HeadFault;
use std::alloc::{AllocError, AllocFailed};
use std::error::Error;
use std::fmt;

/// Why a head gave no audit.
#[derive(Clone, Copy, Debug, PartialEq, Eq)]
pub enum AuditEnd {
    /// The least fault of the head: its line, from 1, and its kind.
    Fault(u32, HeadFault),
    /// Memory ran out; nothing is said of the head.
    OutOfMemory,
}

impl fmt::Display for AuditEnd {
    ghost use Rattle.std.specs.Prelude.{Some};
    ghost use Rattle.tool_audit.specs.Ends.{text_of};

    ghost output = { λ e. Some (text_of e) };

    fn fmt<W: fmt::Write>(&self, f: &mut fmt::Formatter<W>) -> fmt::Result {
        match self {
            AuditEnd::Fault(line, kind) => write!(f, "line {line}: {kind}"),
            AuditEnd::OutOfMemory => f.write_str("out of memory"),
        }
    }
}

impl Error for AuditEnd {}

impl From<AllocError> for AuditEnd {
    ghost use Rattle.std.specs.Prelude.{◌≡◌};
    ghost use Rattle.tool_audit.specs.declared.end.AuditEnd.TheVariants.{OutOfMemory};

    ghost from_gives = { λ _ e. e ≡ OutOfMemory };

    fn from(_: AllocError) -> Self {
        AuditEnd::OutOfMemory
    }
}

impl<T: Drop> From<AllocFailed<T>> for AuditEnd {
    ghost use Rattle.std.specs.Prelude.{◌≡◌};
    ghost use Rattle.tool_audit.specs.declared.end.AuditEnd.TheVariants.{OutOfMemory};

    ghost from_gives = { λ _ e. e ≡ OutOfMemory };

    fn from(_: AllocFailed<T>) -> Self {
        AuditEnd::OutOfMemory
    }
}
