//! The script of a text, or the first mistake in the text. `read` goes through three phases, each over all lines before the next:
//! `structure` (what each line is), `names` (what is declared and used) and `ranges` (numbers and limits). A text that has a fault in
//! none of them is a script, which `build` makes. `operands` says what the word at a place says, for `ranges` and `build`.
//!
//! Proved: `read_script`: a script only where the text says it; `Fault(line, kind)` only where the text is no script, with the
//! least of all its faults by phase, line and kind.
#![tactic(auto)]

mod build;
mod end;
mod names;
mod operands;
mod ranges;
mod read;
mod structure;

pub use end::ScriptEnd;
pub use read::read_script;
pub use script_table::FaultKind;
pub use words_script::{
    Body, Call, Decl, Decls, Kind, Name, Operand, Policy, Protocol, Script, Step,
};
