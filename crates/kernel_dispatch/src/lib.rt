//! What stands around the ticks of a kernel: before each of them the dispatch and the runs of strict servers, behind the last one the
//! closing lines.
//!
//! Proved: `prepare` is what the machine does before a tick, with the lines told; `report` prints the closing lines.
#![tactic(auto)]

mod closing_lines;
mod dispatch;
mod runs;

pub use closing_lines::report;
pub use dispatch::prepare;
pub use runs::has_run;
