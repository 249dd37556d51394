//! What the texts of a kernel's facts are made of, whatever state they are of: their rows, their lines, how long they are, and the rooms
//! that they need.
//!
//! Proved: `put_more` and `put_end` print the line of a fact word by word, so that no room limits its length. `keep` puts a text behind
//! others. In the rooms of `rooms_of` all texts have room, where the state has the threads and objects of the script. `know_names` tells
//! that the names of a script are short.
//!
//! None takes memory. Nothing here reads a state, so that all of it is proved beside the kernel's parts.
#![tactic(auto)]

mod kept;
mod line;
mod rooms;
mod rows;
mod short;

pub use kept::keep;
pub use line::{put_end, put_more};
pub use rooms::{Rooms, rooms_of};
pub use rows::{ObjectRow, ThreadRow};
pub use short::know_names;
