//! The list machine as definitions, in specs/: what the simulator does at each tick, for every call and every due item.
//! docs/MACHINE.md explains them. Code and definitions share the plain words of this crate.
//!
//! Proved: the machine itself, as definitions that compute; it has no function but those of its plain words. Its worked examples
//! hold by computing.
#![tactic(auto)]

mod call_names;
mod cancellation;
mod dispatch;
mod frame;
mod signal;
mod thread;

pub use call_names::call_name;
pub use cancellation::is_cancellation_point;
pub use dispatch::LastDispatch;
pub use frame::{BodyOf, FrameKind};
pub use signal::SigAction;
pub use thread::CondEnd;
