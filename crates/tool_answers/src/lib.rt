//! What each command answers: the words of a command line, the statuses, and the lines of faults.
//!
//! Proved: `command_of_words` is the command of the words, with its numbers within their limits; each status has its number; the line
//! of a fault has its line, its number and its name, and that of a breach its line and its rule; `put_text` writes a text at once. What a
//! command answers to which bytes is defined in `specs/Answer.antt`, whose worked examples hold by computing.
#![tactic(auto)]

mod command;
mod message;
mod put;
mod status;

pub use command::{Command, SCRIPT_LIMIT, command_of_words};
pub use message::{Message, breach_line, refused_head_line, refused_line, refused_task_line};
pub use put::put_text;
pub use status::Status;
