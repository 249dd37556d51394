//! Scripts for long runs: each number has one, which is always the same.
//!
//! Proved: `make` gives the script of a number that its definition says.
#![tactic(auto)]

mod draws;
mod generated;

pub use generated::make;
