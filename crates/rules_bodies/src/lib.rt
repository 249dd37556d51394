//! Bodies, as definitions that compute: what a thread does next, on the tree of a body and in its flat code.
//!
//! Proved: the next unit, place and register that the flat search finds are the tree's.
#![tactic(auto)]

mod cursor;
mod op;
mod unit;

pub use cursor::Cursor;
pub use op::Op;
pub use unit::Unit;
