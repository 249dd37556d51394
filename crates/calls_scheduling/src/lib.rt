//! Scheduling: yielding, starting threads, their priorities and policies, sleeping, and reading the clocks.
//!
//! Proved: each answer of the calls of scheduling by its row, with the lines told; a policy is set as its server begins, and the thread
//! is the tail of its list unless it owns a mutex that can raise it.
#![tactic(auto)]

mod lives;
mod scheduling;
mod table;
mod time;

pub use table::do_scheduling_call;
