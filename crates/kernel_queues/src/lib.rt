//! The message queues of a script: what they hold, and the notification that is asked of each.
//!
//! Proved: each call is the machine's change of a queue, or its answer; `take` gives the value of the oldest message of the
//! greatest priority.
//!
//! Contracts see the queues of the machine, each with its messages in the order of arrival; who waits for a queue is kept elsewhere.
//! The next message is the oldest of the greatest priority: a word marks the priorities that have messages, and each has a list of its
//! own, so that no message is searched for. All room is taken by `open`, and no later call takes memory.
#![tactic(auto)]

mod message;
mod open;
mod queue;
mod queues;
mod registration;

pub use message::HeldMessage;
pub use queue::MessageQueue;
pub use queues::Queues;
pub use registration::Registration;
