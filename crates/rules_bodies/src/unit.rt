//! Units of work.
use words_script::Call;

/// What a thread does next: a unit of work. A call, a jump and a finish take one tick.
#[derive(Clone, Copy)]
pub enum Unit {
    /// Runs for so many ticks.
    Run(u64),
    /// Makes a call.
    Make(Call),
    /// Jumps back to the start of a loop.
    Jump,
    /// Comes to the end of the body.
    Finish,
}
