//! Nodes in the order in which they came, each of one of 32 ranks.
//!
//! Proved: nodes that have come, each with a rank: the oldest of a rank, the next one of it, the highest rank, and the oldest of
//! all are those of its list.
//!
//! Contracts see how many nodes there are, and those that have come, the oldest first, each with its rank. The nodes stand on two
//! linked lists, by age and by age within their rank, and a word marks the ranks that have nodes, so that no call but `open` and `nth`
//! searches or walks: each takes the same few steps however many nodes there are. No call after `open` takes memory.
#![tactic(auto)]

mod arrivals;
mod marks;

pub use arrivals::Arrivals;
