//! The report of response times: one line for each task, in the order of declaration.
//!
//! Proved: the lines written are those of the response times, or a part from their front where a write failed; the sums are
//! bounded (`rounds`).
#![tactic(auto)]

mod line;
mod report;

pub use report::put_responses;
