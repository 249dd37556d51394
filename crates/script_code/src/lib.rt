//! The flat code of a script, and the next unit of a body.
//!
//! Proved: `fetch` computes the flat search exactly, and gives the next unit, place and register of the tree; `units` gives the
//! operations of one body, whose `fetch` does the same; it ends and takes no memory.
#![tactic(auto)]

mod code;
mod fetched;
mod next;
mod ops;
mod short_call;
mod units;

pub use code::Code;
pub use fetched::{CallPlace, Fetched};
pub use next::REGISTER_LIMIT;
pub use ops::{Ops, Packed};
pub use rules_bodies::{Cursor, Op, Unit};
pub use short_call::ShortCall;
pub use units::Units;
