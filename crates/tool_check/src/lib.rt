//! A trace beside the one that is due: the first line that differs, and what a line says.
//!
//! Proved: `first_difference`, `divide` and `compare` are their definitions; 257 bytes more than a trace has are enough of the
//! one that is due to tell what differs. `read_line` gives the event that its definition reads in a line, and reads back each
//! line that is printed of names that are names and numbers up to 3 * 10^18.
//!
//! [`Limited`] holds the due trace as far as it matters, [`first_difference`] finds the line, and [`read_line`] reads it.
//! [`divide`] splits a script from the trace behind it, and [`compare`] tells of the line that differs. No call takes memory
//! but [`Limited::open`] and [`KnownRoom::open`].
#![tactic(auto)]

mod comparison;
mod difference;
mod divided;
mod form;
mod known_room;
mod limited;
mod lines;
mod words;

pub use comparison::{Difference, compare};
pub use difference::first_difference;
pub use divided::divide;
pub use form::Form;
pub use known_room::{KnownRoom, Room};
pub use limited::Limited;
pub use lines::{TraceLine, read_line};
