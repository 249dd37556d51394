//! Kinds of faults.
ghost use Rattle.std.specs.Prelude.{◌≡◌};
ghost use Rattle.tool_audit.specs.Faults.{number_of, name_of};

use std::fmt;

/// What is wrong in a line of a head. The numbers stand in the message of a refused head, and order the faults of one line in one phase.
/// A kind that a script can have too has the script's number and name.
#[derive(Clone, Copy, Debug, PartialEq, Eq)]
pub enum HeadFault {
    /// A byte that is neither a tab nor one of 32 to 126.
    BadByte,
    /// The first word is not `server`.
    UnknownWord,
    /// There are not four words behind `server`.
    WordCount,
    /// A word at a place for a number is none.
    BadNumber,
    /// A number above 10^18.
    NumberRange,
    /// The word at the place of the name is no name.
    BadName,
    /// A name that an earlier line declares.
    DuplicateName,
    /// The 257th server, or a later one.
    TooMany,
    /// A budget of 0, a period below the budget, or a greatest number of pending replenishments outside 1 to 16.
    ServerRange,
}

impl HeadFault {
    /// Its number: 1 to 7, 13 or 15.
    pub fn number(self) -> u8
        ensures { result ≡ number_of self }
    {
        match self {
            HeadFault::BadByte => 1,
            HeadFault::UnknownWord => 2,
            HeadFault::WordCount => 3,
            HeadFault::BadNumber => 4,
            HeadFault::NumberRange => 5,
            HeadFault::BadName => 6,
            HeadFault::DuplicateName => 7,
            HeadFault::TooMany => 13,
            HeadFault::ServerRange => 15,
        }
    }

    /// Its name, as it is spelled here.
    pub fn name(self) -> &'static str
        ensures { result.now ≡ name_of self }
    {
        match self {
            HeadFault::BadByte => "BadByte",
            HeadFault::UnknownWord => "UnknownWord",
            HeadFault::WordCount => "WordCount",
            HeadFault::BadNumber => "BadNumber",
            HeadFault::NumberRange => "NumberRange",
            HeadFault::BadName => "BadName",
            HeadFault::DuplicateName => "DuplicateName",
            HeadFault::TooMany => "TooMany",
            HeadFault::ServerRange => "ServerRange",
        }
    }
}

impl fmt::Display for HeadFault {
    ghost use Rattle.std.specs.Prelude.{Some};
    ghost use Rattle.tool_audit.specs.Faults.{name_of};

    ghost output = { λ kind. Some (name_of kind) };

    fn fmt<W: fmt::Write>(&self, f: &mut fmt::Formatter<W>) -> fmt::Result {
        f.write_str(self.name())
    }
}
