//! The settling of a kernel: each thread that has to move is put where it is to stand, after an effect.
//!
//! Proved: `settle` makes the moves of the rules, of what was done since any machine whose threads stood right; after an effect and its
//! settling all threads stand right again.
#![tactic(auto)]

mod priorities;
mod settling;

pub use priorities::know_priorities;
pub use settling::settle;
