//! The subjects of the facts of a state, which stay the same throughout a run, as a list of texts.
//!
//! Proved: `keep_subjects` puts the text of the subject of each fact into a list of texts, in the order of the facts; in the rooms of
//! `rooms_of` each has room.
//!
//! The state is read and not changed, and no memory is taken.
#![tactic(auto)]

mod subjects;

pub use subjects::keep_subjects;
