//! The effects of calls: each is a step of a turn of the machine over flat code.
//!
//! Proved: the row of each call is the machine's.
#![tactic(auto)]

mod table;

pub use table::{
    make_call, make_queue_call, make_scheduling_call, make_signal_call, make_sync_call,
    make_thread_call,
};
