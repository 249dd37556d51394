//! What signals do.
use words_numbers::ObjId;

/// The action of a signal, fixed by the script: `SIG_DFL`, which ends the process, `SIG_IGN`, or a signal-catching function.
#[derive(Clone, Copy)]
pub enum SigAction {
    Kill,
    Ignore,
    Handler(ObjId),
}
