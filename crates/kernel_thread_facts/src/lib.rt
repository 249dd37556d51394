//! What is told of threads: the lists that they stand on, their statuses and what they have about them, each fact printed as a text.
//!
//! Proved: `put_list` and `put_thread_fact` print the text of one fact, and `print_list` and `print_thread_fact` print it to a sink and
//! answer whether a write failed.
//!
//! The state is read and not changed, and no memory is taken. Lists are written word by word, so that no room limits their length.
#![tactic(auto)]

mod lists;
mod printed;
mod threads;

pub use lists::{prio_of, put_list};
pub use printed::{print_list, print_thread_fact};
pub use threads::put_thread_fact;
