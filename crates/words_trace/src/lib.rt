//! The words of a trace: the events of a run, and the line that each prints.
//!
//! Proved: nothing here; `parts_tracer` writes these lines.
//!
//! docs/TRACE.md explains each line to its reader.
#![tactic(auto)]

mod event;
mod report;

pub use event::{CallName, Event};
pub use report::{BudgetView, Report};
