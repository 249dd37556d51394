//! Units as they are fetched.

use crate::ShortCall;

/// A unit as it is fetched. A short call is told by itself. Any other is told by where it stands, since it is large and is looked at only
/// when its tick is over.
#[derive(Clone, Copy)]
pub enum Fetched {
    /// Runs for so many ticks.
    Run(u64),
    /// Jumps back to the start of a loop.
    Jump,
    /// Makes the call that stands there.
    Make(CallPlace),
    /// Makes that call.
    Short(ShortCall),
    /// Comes to the end of the body.
    Finish,
}

/// Where a call stands in the flat code. Both numbers are whole words, as the ticks of a unit that runs are, so that a unit is handed
/// on in registers: a narrow store that a wide load follows is slow.
#[derive(Clone, Copy)]
pub struct CallPlace {
    /// The number of the body.
    pub body: usize,
    /// The number of the operation in its body.
    pub op: usize,
}
