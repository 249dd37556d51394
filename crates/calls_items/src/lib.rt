//! What a kernel does with no call: the due items, and the sweep that delivers pending signals. Each is a step of a turn of the machine.
//!
//! Proved: each due item with its moves and the sweep is the machine's. An expiry generates its timer's signal, or counts one overrun
//! more where that is pending. `sweep`: each thread by number takes the record that is selected for it, by its handler or as the end of
//! the process, with the moves.
#![tactic(auto)]

mod delivery;
mod expiries;
mod items;
mod sweeps;

pub use items::do_item;
pub use sweeps::sweep;
