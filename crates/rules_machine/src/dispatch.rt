//! To what a tick was given.
use words_numbers::Tid;

/// To what the last tick was given.
#[derive(Clone, Copy)]
pub enum LastDispatch {
    /// There was no tick yet.
    NoTick,
    /// No thread was runnable.
    Idle,
    /// The thread at the head of the highest list ran.
    Ran(Tid),
}
