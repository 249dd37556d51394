//! The trees of a script's steps into flat code.
//!
//! Proved: `open` gives the flat form of each body of a script, numbered in the order of the declarations.
#![tactic(auto)]

mod bodies;
mod flatten;

pub use bodies::open;
