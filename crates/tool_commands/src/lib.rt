//! The tool: one call from the words and the bytes in to the trace out.
//!
//! Proved: `run_tool`: the theorem, clause by clause in docs/PROVED.md.
#![tactic(auto)]

mod answer;
mod carried;
mod read;
mod tool;

pub use tool::run_tool;
