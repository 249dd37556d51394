//! The rules of a tick's end, and what a plan and a refill did.
use parts_server::Replenish;

/// The rule of a tick's end.
#[derive(Clone, Copy)]
pub enum TickEnd {
    /// It blocked, and what it consumed is planned.
    Planning,
    /// Its capacity is used up.
    Exhausting,
    /// Its quantum is used up.
    Slicing,
    Nothing,
}

/// The capacity after a refill, what it gave, and whether it gave the high priority back. The line of a refill has the first two in the
/// other order, so that they are not copied to it as one piece, which would wait for the stores of both.
#[derive(Clone, Copy)]
pub struct Refilled {
    pub capacity: u64,
    pub amount: u64,
    pub regains_high: bool,
}

/// What was planned, whether nothing else was pending, and whether one more replenishment may become pending after it.
#[derive(Clone, Copy)]
pub struct Planned {
    pub replenish: Replenish,
    pub is_first: bool,
    pub has_room: bool,
}
