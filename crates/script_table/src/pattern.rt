//! Patterns of lines.
use crate::Form;
use words_script::NameKind;

/// The word that closes a block.
#[derive(Clone, Copy)]
pub enum Closer {
    End,
    Pop,
}

/// An open body or block.
#[derive(Clone, Copy)]
pub struct Opening {
    /// What the body is of in which it stands, or which it is.
    pub home: NameKind,
    /// The word that closes it.
    pub closer: Closer,
}

/// The bodies from which a step is barred.
#[derive(Clone, Copy)]
pub enum Bar {
    Nowhere,
    /// The bodies of signal handlers.
    Handlers,
    /// The bodies of signal handlers and of cleanup handlers.
    HandlersAndCleanups,
}

/// What stands at a place of a pattern.
#[derive(Clone, Copy)]
pub enum Place {
    /// This word.
    Keyword(&'static [u8]),
    /// The answer of a call: `0` or the name of an error. These words are keywords.
    Answer,
    /// A number in this range.
    Number { low: u64, high: u64 },
    /// A number of at most 10^18, or `reg`.
    Operand,
    /// A name that the line declares.
    Declares(NameKind),
    /// A name that is declared elsewhere.
    Uses(NameKind),
    /// A signal, `rt0` to `rt31`.
    Signal,
    /// A signal for which the line says what it does.
    Acts,
    /// A set of signals.
    Signals,
}

/// A pattern of a line.
#[derive(Clone, Copy)]
pub struct Pattern {
    pub form: Form,
    pub bar: Bar,
    /// The word with which the line begins.
    pub keyword: &'static [u8],
    /// What follows that word.
    pub places: &'static [Place],
}

/// A table of patterns, in three parts.
#[derive(Clone, Copy)]
pub struct Table {
    pub declarations: &'static [Pattern],
    pub steps: &'static [Pattern],
    pub calls: &'static [Pattern],
}
