//! The calls of mutexes, conditions and semaphores: each is a step of a turn of the machine.
//!
//! Proved: each answer of the calls of mutexes, conditions and semaphores by its row, with the lines told; an unlocked mutex goes
//! to its best waiter, and who leaves a condition owns its mutex again or waits for it.
#![tactic(auto)]

mod answers;
mod conditions;
mod mutexes;
mod semaphores;
mod table;

pub use conditions::contend;
pub use table::do_sync_call;
