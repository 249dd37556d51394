//! The generation of a signal, by whatever sends it, and its delivery to a thread. Each is a step of a turn of the machine.
//!
//! Proved: `generate`: a signal goes to the thread that waits for it and is served first, or is ignored, or becomes pending; `deliver`
//! tells what a thread takes, and counts the overrun of its timer.
#![tactic(auto)]

mod acceptance;
mod generation;

pub use acceptance::{accept, deliver, is_ignored};
pub use generation::generate;
