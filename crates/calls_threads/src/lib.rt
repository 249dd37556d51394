//! Joining, ending, cancellation and cleanup handlers: each call, and the end of a body, is a step of a turn of the machine.
//!
//! Proved: the calls of joining, ending, cancellation and cleanup handlers by their rows, with the lines told; the end of a body
//! ends its thread, whose joiner wakes with its value, or drops a handler's frame.
#![tactic(auto)]

mod cancellation;
mod cleanups;
mod ends;
mod joins;
mod table;

pub use cancellation::acts_in_place;
pub use ends::finish;
pub use table::do_thread_call;
