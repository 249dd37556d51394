//! Least response times of independent periodic tasks under fixed priorities.
//!
//! Proved: the least response time of each task is when its first job ends in the schedule served tick by tick, and the least
//! solution of the equation; it is found in at most one sum more than the bound.
//!
//! All tasks release their first job at the instant 0, and one processor serves the most urgent work tick by tick. The
//! response time of a task is the instant at which its first job ends; it is also the least positive solution of
//! `R = C + B + sum of ceil(R / T) * C` over the tasks of higher priority, with cost C, blocking B and period T.
//! `Tasks::response` is proved to give both.
#![tactic(auto)]

mod end;
mod equation;
mod fault;
mod reading;
mod statement;
mod task;
mod tasks;

pub use end::RtaEnd;
pub use fault::TaskFault;
pub use task::Task;
pub use tasks::Tasks;
