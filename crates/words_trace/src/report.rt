//! What the closing line of a thread tells.

/// The totals of a thread at the end of a run.
#[derive(Clone, Copy)]
pub struct Report {
    /// How many ticks the thread has run.
    pub ticks: u64,
    /// The budget of its sporadic or strict server, where it is live and has one.
    pub budget: Option<BudgetView>,
}

/// The budget of a sporadic or strict server, in ticks. `high` equals `init` plus `refilled` minus `capacity`.
#[derive(Clone, Copy)]
pub struct BudgetView {
    /// How many ticks the thread has run at its high priority, since its server was new.
    pub high: u64,
    /// The initial budget.
    pub init: u64,
    /// The sum of the amounts refilled, since its server was new.
    pub refilled: u64,
    /// The capacity that is left.
    pub capacity: u64,
}
