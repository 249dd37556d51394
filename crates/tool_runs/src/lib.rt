//! The commands that run the kernel: `run`, `show`, `detail`, `check` and `soak`.
//!
//! Proved: each writes the answer that is defined for it, or a part of it and then a write failed; want of memory comes before
//! anything is written; the steps of all but `check` are few, by the eventful instants of their runs. Once the kernel and, for
//! `detail`, the texts of its facts are open, nothing takes memory.
#![tactic(auto)]

mod check;
mod detail;
mod long_runs;
mod refused;
mod run;
mod runs;
mod show;

pub use check::check_text;
pub use detail::detail_text;
pub use long_runs::soak;
pub use run::run_text;
pub use show::show_text;
