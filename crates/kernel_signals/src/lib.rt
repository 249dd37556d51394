//! What signals do, and the pending ones: the records that were generated and not taken yet.
//!
//! Proved: pending signals: `next_in` and `next_for` give the record that is selected for a wait, and for a thread in the sweep;
//! `is_full` where 64 of `kill`, `tkill` and `sigqueue` are pending; the actions are those that the script declares.
//!
//! Contracts see the pending records of the machine, in the order in which they became pending. A record that is selected is the one of
//! the lowest signal, and of that signal the oldest: each signal has a list of its own, so that no record of a higher signal is looked
//! at. The room for all records that can be pending is taken by `open`, and no later call takes memory.
#![tactic(auto)]

mod actions;
mod ages;
mod choice;
mod pending;
mod record;
mod timed;

pub use actions::Actions;
pub use pending::Pending;
pub use record::SignalRecord;
