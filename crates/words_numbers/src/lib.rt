//! The small numbers of the machine, each in its range, and the words that every layer shares.
//!
//! Proved: every function's result: ranges of numbers, `Item::of` and `number` undo one another, members of signal sets, texts of
//! results.
#![tactic(auto)]

mod ids;
mod item;
mod params;
mod prio;
mod res;
mod sig_code;
mod sig_set;
mod tick;

pub use ids::{ObjId, Tid};
pub use item::{Item, ItemId};
pub use params::Params;
pub use prio::Prio;
pub use res::Res;
pub use sig_code::SigCode;
pub use sig_set::SigSet;
pub use tick::Tick;

/// The greatest number that a script or a command may say, whether of ticks, of passes or a value: 10^18.
pub const GREATEST_NUMBER: u64 = 1_000_000_000_000_000_000;
