//! What is told of objects and signals: owners, who waits, values, messages, notifications, timers and pending records, each fact printed
//! as a text.
//!
//! Proved: `put_object_facts` and `put_signal` print the text of what a row tells, and `print_object_facts`, `print_waiters` and
//! `print_signal` print it to a sink and answer whether a write failed.
//!
//! The state is read and not changed, and no memory is taken. Lists are written word by word, so that no room limits their length.
#![tactic(auto)]

mod objects;
mod printed;
mod queues;
mod rows;
mod signals;

pub use printed::{print_object_facts, print_signal, print_waiters};
pub use rows::put_object_facts;
pub use signals::{left_out, put_signal};
