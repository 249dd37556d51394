//! The lines of a text, and the words of a line.
//!
//! Proved: lines and words are those of the definitions, each word the slice that begins at its place.
//!
//! Both are read where they lie: a line and a word are slices of the text, and no call takes memory.
//! To read a whole text costs a time that is linear in its length.
#![tactic(auto)]

mod line;
mod lines;
mod stops;
mod words;

pub use line::Line;
pub use lines::Lines;
pub use words::{Word, Words};
