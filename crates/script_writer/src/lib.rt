//! The canonical text of a script.
//!
//! Proved: `write_script` has the contract of one write of the whole canonical text, for every form; it takes no memory.
//!
//! It has the quantum and then the declarations in their order, a line for each, for each step and for the end of each block; one blank
//! between words, and no indentation; numbers without leading zeros; and a set of signals as `all`, `none`, or its signals rising. That
//! of version 2 begins with the line `version 2`.
#![tactic(auto)]

mod body;
mod call;
mod decl;
mod length;
mod line;
mod names;
mod write;

pub use length::canon_len;
pub use line::{LineText, Word, word_text};
pub use names::{name_count, name_of};
pub use write::write_script;
