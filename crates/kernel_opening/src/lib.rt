//! The kernel of a script: all its parts, which it takes the memory for.
//!
//! Proved: what `open` answers stands for the machine of the script before the first tick, over its flat code.
#![tactic(auto)]

mod opening;

pub use opening::open;
