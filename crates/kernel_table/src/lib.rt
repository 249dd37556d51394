//! The threads of a kernel with what is kept beside them: execution priorities, owners of mutexes, the waiters of each object, and the
//! interval timers, with what falls due of threads and timers, and which of them hold a reading of CLOCK_REALTIME.
//!
//! Proved: the threads with their mutexes, waits and interval timers: each change of a thread is the machine's, claims,
//! priorities, places of waiters, due items and readings follow it, and it tells whose execution priority it moved; `first_due` is the
//! machine's next item, `next_due` the least due tick of its agenda.
//!
//! Contracts see the threads, the mutexes and the timers of the machine, and nothing of what is kept beside them.
#![tactic(auto)]

mod changes;
mod conditions;
mod endings;
mod links;
mod lives;
mod movers;
mod mutexes;
mod open;
mod plans;
mod rare_set;
mod reads;
mod real_items;
mod settings;
mod signals;
mod table;
mod timers;
mod times;

pub use settings::Setting;
pub use table::Table;
