//! All parts of the kernel, seen as one machine over flat code.
//!
//! Proved: all parts seen as one machine: each primitive is a step of a turn of the machine (what changes, and what is told), or a
//! change of the lists alone, after which each thread that is not named stands right; the next due item; put together of its parts it
//! is the opening state.
#![tactic(auto)]

mod caller;
mod changes;
mod clock;
mod conditions;
mod direct;
mod due;
mod leaps;
mod lists;
mod lives;
mod messages;
mod mutexes;
mod named;
mod open;
mod parts;
mod reads;
mod semaphore_values;
mod settings;
mod signals;
mod threads;
mod timers;

pub use caller::Caller;
pub use open::{Objects, RunBy};
pub use parts::Parts;
