//! A sporadic server that an audit is about.
use words_script::Name;

/// The numbers of a server. In an audit that was opened the budget is at least 1 and at most the period, which is at most 10^18.
#[derive(Clone, Copy)]
pub struct Limits {
    /// The replenishment period, in ticks.
    pub period: u64,
    /// The initial budget, in ticks.
    pub budget: u64,
    /// The greatest number of pending replenishments, 1 to 16.
    pub max: u64,
}

/// A server of a head, and the name of its thread.
#[derive(Drop)]
pub struct NamedServer {
    pub name: Name,
    pub limits: Limits,
}
