//! The text of a whole state, as `show` tells it: its facts, row by row, and the numbers of its threads.
//!
//! Proved: `write_state` writes the text of the state, or a part of it and then a write failed.
//!
//! The state is read and not changed, and no memory is taken.
#![tactic(auto)]

mod numbers;
mod rows;
mod state;

pub use state::write_state;
