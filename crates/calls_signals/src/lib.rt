//! Signals: sending them, masks, waiting for them, and the interval timers that send them and CLOCK_REALTIME, which is set under them.
//! Each is a step of a turn of the machine.
//!
//! Proved: each answer of the calls of signals and of timers by its row, with the lines told.
#![tactic(auto)]

mod clock;
mod kills;
mod masks;
mod sigwait;
mod table;
mod timers;

pub use table::do_signal_call;
