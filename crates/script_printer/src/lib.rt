//! Prints lines of words to a sink until a write fails.
//!
//! Proved: each call appends the words that it is given, in their canonical text, or latches a failure, after which nothing is written;
//! no call takes memory.
//!
//! A line may be printed in pieces: its first words, more words, its end. So no room limits its length. The words of one call are made in
//! a row of 256 bytes and written at once, where they have room there.
#![tactic(auto)]

mod printer;
mod row;

pub use printer::Printer;
