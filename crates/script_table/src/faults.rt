//! Kinds of faults.
ghost use Rattle.std.specs.Prelude.{◌≡◌, ◌≤◌};
ghost use Rattle.script_table.specs.Faults.{number_of, name_of, lesser, lesser_first};

use std::fmt;

/// What is wrong in a line. The numbers stand in the message of a refused script, and order the faults of one line in one phase.
#[derive(Clone, Copy, Debug, PartialEq, Eq)]
pub enum FaultKind {
    /// A byte that is neither a tab nor one of 32 to 126.
    BadByte,
    /// No pattern agrees with the line.
    UnknownWord,
    /// A pattern agrees with the line, and none of those has its number of words.
    WordCount,
    /// A word at a place for a number is none.
    BadNumber,
    /// A number out of its range.
    NumberRange,
    /// A word at a place for a name, a signal or a set of signals is none.
    BadName,
    /// A name that an earlier line declares, or a second action for a signal.
    DuplicateName,
    /// A name that no line declares.
    UnknownName,
    /// A name of something else.
    WrongKind,
    /// A declaration inside a body, a step outside of one, or a step that is barred from this body.
    NotHere,
    /// A closing line where no block is open, or another word closes it.
    StrayClose,
    /// A block that is open at the end.
    Unclosed,
    /// A declaration, a step or a block above a limit.
    TooMany,
    /// No thread is declared.
    NoThread,
    /// Parameters of a server that do not fit one another.
    ServerRange,
    /// The first line with words begins with `version` and is not `version 2`.
    BadVersion,
}

impl FaultKind {
    /// Its number, 1 to 16.
    pub fn number(self) -> u8
        ensures { result ≡ number_of self }
    {
        match self {
            FaultKind::BadByte => 1,
            FaultKind::UnknownWord => 2,
            FaultKind::WordCount => 3,
            FaultKind::BadNumber => 4,
            FaultKind::NumberRange => 5,
            FaultKind::BadName => 6,
            FaultKind::DuplicateName => 7,
            FaultKind::UnknownName => 8,
            FaultKind::WrongKind => 9,
            FaultKind::NotHere => 10,
            FaultKind::StrayClose => 11,
            FaultKind::Unclosed => 12,
            FaultKind::TooMany => 13,
            FaultKind::NoThread => 14,
            FaultKind::ServerRange => 15,
            FaultKind::BadVersion => 16,
        }
    }

    /// Its name, as it is spelled here.
    pub fn name(self) -> &'static str
        ensures { result.now ≡ name_of self }
    {
        match self {
            FaultKind::BadByte => "BadByte",
            FaultKind::UnknownWord => "UnknownWord",
            FaultKind::WordCount => "WordCount",
            FaultKind::BadNumber => "BadNumber",
            FaultKind::NumberRange => "NumberRange",
            FaultKind::BadName => "BadName",
            FaultKind::DuplicateName => "DuplicateName",
            FaultKind::UnknownName => "UnknownName",
            FaultKind::WrongKind => "WrongKind",
            FaultKind::NotHere => "NotHere",
            FaultKind::StrayClose => "StrayClose",
            FaultKind::Unclosed => "Unclosed",
            FaultKind::TooMany => "TooMany",
            FaultKind::NoThread => "NoThread",
            FaultKind::ServerRange => "ServerRange",
            FaultKind::BadVersion => "BadVersion",
        }
    }
}

impl fmt::Display for FaultKind {
    ghost use Rattle.std.specs.Prelude.{Some};
    ghost use Rattle.script_table.specs.Faults.{name_of};

    ghost output = { λ kind. Some (name_of kind) };

    fn fmt<W: fmt::Write>(&self, f: &mut fmt::Formatter<W>) -> fmt::Result {
        f.write_str(self.name())
    }
}

// The lesser of two kinds.
#[inline(never)]
fn lesser(a: FaultKind, b: FaultKind) -> FaultKind
    ensures { result ≡ lesser a b }
{
    if b.number() < a.number() { b } else { a }
}

/// The least of a kind that may be there and of what follows it.
#[inline(always)]
pub fn lesser_first(first: Option<FaultKind>, rest: Option<FaultKind>) -> Option<FaultKind>
    ensures { result ≡ lesser_first first rest }
{
    match (first, rest) {
        (None, rest) => rest,
        (Some(a), None) => Some(a),
        (Some(a), Some(b)) => Some(lesser(a, b)),
    }
}
