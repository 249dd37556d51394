//! A look at the facts of a state: what has changed since the last one is told.
//!
//! Proved: `look_at_facts` replaces at a desk what was told of each fact last by what is told now, and leaves there the lines of those that
//! change. In the rooms of `rooms_of` all have room, where the state has the threads and objects of the script. It takes no memory.
//!
//! A look writes no text of a fact that tells nothing now and told nothing before, and none of one that is seen to be the same as a value.
//!
//! The state is read and not changed.
#![tactic(auto)]

mod ahead;
mod changes;
mod desk;
mod look;
mod look_lists;
mod look_signals;
mod look_threads;
mod nothing;
mod nothings;

pub use desk::Desk;
pub use look::look_at_facts;
