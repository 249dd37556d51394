//! What is seen of a fact as a value, so that it is known to be the same as last without its text.
//!
//! Proved: `see_thread`, `see_list`, `see_line` and `see_object` answer a value that stands for the fact that is told now, or that none is
//! seen; where `is_of_thread`, `is_list`, `is_line` or `is_of_object` answers true, the value that was seen last stands for the fact that
//! is told now. `SeenFacts` keeps what was seen of each fact by number.
//!
//! Seen are the status of a thread, its mask, its cancelability, a list with a few threads on it, one or two planned replenishments, an
//! owner, the value of a semaphore, a few messages of a queue, whom a message of it tells, when a timer is due, a few who wait in a line.
//!
//! The state is read and not changed. `SeenFacts::open` alone takes memory.
#![tactic(auto)]

mod fact_seen;
mod few;
mod kept_line;
mod objects_seen;
mod seen;
mod seen_facts;

pub use fact_seen::{FactSeen, is_list, is_of_thread, see_thread};
pub use few::{FewMessages, FewThreads, SmallMessage, see_list};
pub use kept_line::{FewWaiters, is_line, see_line};
pub use objects_seen::{is_of_object, see_object};
pub use seen::Seen;
pub use seen_facts::SeenFacts;
