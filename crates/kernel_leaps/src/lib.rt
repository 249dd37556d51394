//! The kernel: it runs the flat code of a script in leaps, which come to the same as ticks, and prints what happens.
//!
//! Proved: over flat code: `Kernel::open` stands for the opening state; `run_until` leaves the state of the machine run tick by
//! tick and tells its events, from any instant, in at most one step more than there are eventful instants between the instant and
//! the horizon (`busy`); it answers `Killed` exactly where a signal has ended the process by then (`killed`, `ended`); the state
//! that it leaves has its lists, owners, servers and waits right (`good`), and in a run from the beginning each server keeps its
//! budget at every instant (`budgets`); of a kernel that was opened for a script and has not run yet, state, events and eventful
//! instants are the script's (`machine`, `events`, `eventful`); `report` prints the closing lines; `show` writes what is shown of the
//! script at the instant to which its kernel ran, and `detail` what is told of its run in detail, in at most twice as many steps;
//! `running`, `now`, `totals`.
#![tactic(auto)]

mod calls;
mod detail;
mod fact_texts;
mod instant;
mod kernel;
mod leaps;
mod plain_ticks;
mod run;
mod tick_ends;
mod units;

pub use fact_texts::FactTexts;
pub use kernel::Kernel;
pub use run::RunEnd;
