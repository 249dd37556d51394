//! Waits, wakes and starts of threads, with what is told of them, and what is told of their servers. Each is a step of a turn of the
//! machine.
//!
//! Proved: each wait for what is no mutex, wake, start, activation, plan and request that acts is the effect of the rules, with the lines told.
#![tactic(auto)]

mod blocks;
mod cancels;
mod servers;
mod wakes;

pub use blocks::{block_unless_late, is_late};
pub use cancels::{cancel_now, wake_cancelled, wake_cancelled_owner};
pub use servers::{activate, activate_now, plan};
pub use wakes::{start, wake, wake_owner};
