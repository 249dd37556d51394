//! What a thread came to that ran by itself.
use script_code::Fetched;

/// What a thread came to that ran by itself for some ticks.
#[derive(Clone, Copy)]
pub struct Ran {
    /// The ticks of the units that it passed: each did nothing but take time, and is over.
    pub passed: u64,
    /// The unit that it was in then.
    pub unit: Fetched,
    /// How many ticks of it.
    pub ticks: u64,
    /// No tick of that unit is left.
    pub is_complete: bool,
    /// The thread had its high priority.
    pub was_high: bool,
}

// The unit that a thread is in, how many ticks of it are left, and the ticks of those that it passed before.
#[derive(Clone, Copy)]
pub(crate) struct Taken {
    pub(crate) passed: u64,
    pub(crate) unit: Fetched,
    pub(crate) left: u64,
}
