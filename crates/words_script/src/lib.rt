//! What a script of tasks says, as plain data. A body is a tree of steps; declarations stand in their order.
//!
//! Proved: names are names, and kinds are told apart; bodies are seen as trees, declarations as a list.
#![tactic(auto)]

mod body;
mod call;
mod decl;
mod name_kind;
mod names;
mod policy;

pub use body::{Body, Step};
pub use call::{Call, Moment, Operand};
pub use decl::{Decl, Decls, Kind, Script};
pub use name_kind::NameKind;
pub use names::Name;
pub use policy::{Policy, Protocol};
