//! A list of texts in one room of bytes, and the one text that is written before it is put behind them.
//!
//! Both rooms are taken at the opening, so no call takes memory later. A list that has no room for one more text is full from then on,
//! and so is not the list that was meant; a write for which there is no room fails.
//!
//! Proved: `push` puts a text behind the others where there is room, `text` is the text with a number, and `clear` leaves none.
#![tactic(auto)]

mod next;
mod slots;
mod texts;

pub use next::NextText;
pub use slots::Slots;
pub use texts::Texts;
