//! The rules of a server of one thread, as definitions that compute: its capacity, its activation time, its replenishments.
//!
//! Proved: each call of a server keeps its budget.
//!
//! The rules are those of SCHED_SPORADIC in IEEE 1003.1-2017, XSH 2.8.4, and this project's own for a strict server;
//! `specs/Server.antt` states them.
#![tactic(auto)]

use words_numbers::Tick;

/// An amount of capacity that comes back at an instant.
#[derive(Clone, Copy, Debug, Default, PartialEq, Eq)]
pub struct Replenish {
    pub amount: u64,
    pub due: Tick,
}

/// What is told of a server when a run ends.
#[derive(Clone, Copy, Debug, PartialEq, Eq)]
pub struct BudgetLine {
    /// The ticks that were run at the high priority since the server was new.
    pub high: u64,
    /// The initial budget.
    pub init: u64,
    /// The sum of the amounts that were refilled since the server was new.
    pub refilled: u64,
    /// The capacity that is left.
    pub capacity: u64,
}

/// The rule by which a server plans its replenishments.
#[derive(Clone, Copy, Debug, PartialEq, Eq)]
pub enum ServerKind {
    /// SCHED_SPORADIC.
    Sporadic,
    /// One replenishment for each run of ticks at the high priority (this project's own).
    Strict,
}
