//! The calls of message queues: sending, receiving, and asking for a notification. Each is a step of a turn of the machine.
//!
//! Proved: each answer of the calls of message queues by its row, with the lines told. `send` hands a message to the receiver
//! that is served first, or it enters; `receive` takes one, and the message of the sender that is served first enters; the
//! notification comes last.
#![tactic(auto)]

mod blocks;
mod entries;
mod notification;
mod receives;
mod sends;
mod table;

pub use table::do_queue_call;
