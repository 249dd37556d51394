//! Operations of the flat code.
use words_numbers::Res;
use words_script::Call;

/// An operation of the flat code. A body's operations are numbered from 0. Contracts speak of it, and the code keeps it packed (`script_code`
/// `ops.rt`).
#[derive(Clone, Copy)]
pub enum Op {
    /// Runs for so many ticks.
    Run(u64),
    /// Makes a call; a guarded block makes `Push` and `Pop`.
    Make(Call),
    /// Sets the register.
    Set(u64),
    /// Adds to the register.
    Add(u64),
    /// Sets the register to the last call's value.
    Take,
    /// Passes over the next `skip` operations, unless the last result is `res` (`equal`), or another one.
    Test { res: Res, equal: bool, skip: u32 },
    /// Begins a loop of so many passes.
    Begin(u64),
    /// Ends a pass of the innermost counted loop: jumps back to its first operation where passes are left.
    Repeat { first: u32 },
    /// Jumps back.
    Again { first: u32 },
}
