//! What is known of reading a canonical text again.
//!
//! Proved: `scripts_read_back`: each script that a text is read as is read again from its canonical text.
//! `scripts_keep_their_statements`: the canonical text says the text's statements in the same order, the quantum's first, and
//! drops none. Eleven more laws say what that text is made of.
//!
//! Each function stands for a law, which its clause states; none of them does anything when it is called.
//! Each script that a text is read as is read again from its canonical text, and from that of version 2 as
//! the same script of version 2. On the way to it: the words of
//! numbers, operands, signals, sets of signals and answers read back as what they were written from; lines
//! of words read back from their text; and a line without a fault of its own, written anew with its
//! canonical words, has the same pattern and no fault.
#![tactic(auto)]

mod lines;
mod scripts;
mod words;

pub use lines::{
    accepted_texts_stay_accepted, canonical_texts_read_the_same, lines_keep_their_patterns,
    lines_keep_their_statements, lines_read_back,
};
pub use scripts::{scripts_keep_their_statements, scripts_read_back, upgrades_read_back};
pub use words::{
    answers_read_back, numbers_read_back, operands_read_back, sets_read_back, signals_read_back,
};
