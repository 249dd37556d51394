//! What the facts of a kernel stand on: the names that they are told by, how much there is of each thing, and the lines in which threads
//! wait.
//!
//! Proved: `Declared` has the names of a script, those of its threads from the kernel that runs it. `object_count` is how many objects a
//! row tells of, and `know_few` and those beside it tell what is known of the sizes of a state. `standing` tells whether a thread stands
//! in a line, and `put_line` prints those that do in the order of service.
//!
//! The state is read and not changed. None takes memory.
#![tactic(auto)]

mod declared;
mod in_line;
mod known;
mod names;
mod waiters;

pub use declared::Declared;
pub use in_line::{InLine, KeptWaiter};
pub use known::{know_few, know_rows, know_timers, object_count, object_of};
pub use names::{body_name, object_name, thread_name};
pub use waiters::{Line, LineSort, put_line, standing};
