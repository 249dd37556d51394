//! The interval timers of a script: when each is due, and how often it expired while its signal was pending.
//!
//! Proved: each call is the machine's change of a timer, or its answer: armed, expired, its overruns counted and told.
//!
//! Contracts see the timers of the machine. Whether a timer's signal is pending is kept with the pending signals, and the wheel of due
//! items has the due ticks a second time. All ticks count from the start of the run. No call after `open` takes memory.
#![tactic(auto)]

mod open;
mod timer;
mod timers;

pub use timer::Timer;
pub use timers::Timers;
