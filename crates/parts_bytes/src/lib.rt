//! Bytes, and digits of numbers, put into a buffer, one place after another.
//!
//! Proved: each function puts the bytes that it says behind those before the place, and answers the place behind them.
#![tactic(auto)]

mod digits;
mod place;

pub use digits::{place_digits, place_eight, place_numeral, place_pair};
pub use place::{place_byte, place_bytes, place_within, place_word};
