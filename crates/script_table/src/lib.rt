//! The patterns of a script's lines, what single words say, and the kinds of faults.
//!
//! Proved: the code's table of patterns is the definition's, row by row; what each word says; kinds of faults and their order.
#![tactic(auto)]

mod faults;
mod form;
mod line_faults;
mod pattern;
mod ranges;
mod table;
mod version;
mod word_faults;
mod words;

pub use faults::{FaultKind, lesser_first};
pub use form::{
    ActionForm, BlockForm, BodyForm, CallForm, CloseForm, Form, MessageCall, MutexCall, ObjectForm,
    SemCall, SignalCall, StepForm, ThreadCall, TimeCall,
};
pub use line_faults::{Fitting, any_agrees, fitting_pattern};
pub use pattern::{Bar, Closer, Opening, Pattern, Place, Table};
pub use table::patterns;
pub use version::Version;
pub use word_faults::WordFaults;
pub use words::{answer_of, capped_value, is_number, is_register, set_of, short_number, signal_of};
pub use words_script::NameKind;
