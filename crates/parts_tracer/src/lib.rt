//! The tracer: it writes the line of each event of a run.
//!
//! Proved: `put` appends the line of the event or latches a failure, after which nothing is written; a line has at most 256 bytes
//! (`short`).
#![tactic(auto)]

mod call_name;
mod common;
mod hundred;
mod line;
mod names;
mod outcome_name;
mod place;
mod tracer;
mod words;

pub use call_name::call_text;
pub use line::line_len;
pub use names::Names;
pub use tracer::Tracer;
