//! Kinds of faults.
ghost use Rattle.std.specs.Prelude.{◌≡◌};
ghost use Rattle.tool_times.specs.Faults.{number_of, name_of};

use std::fmt;

/// What is wrong in a line. The numbers stand in the message of a refused text, and order the faults of one line in one phase.
/// A kind that a script can have too has the script's number and name.
#[derive(Clone, Copy, Debug, PartialEq, Eq)]
pub enum TaskFault {
    /// A byte that is neither a tab nor one of 32 to 126.
    BadByte,
    /// The first word is not `task`.
    UnknownWord,
    /// There are not five words behind `task`.
    WordCount,
    /// A word at a place for a number is none.
    BadNumber,
    /// A number out of its range.
    NumberRange,
    /// The word at the place of the name is no name.
    BadName,
    /// A name that an earlier line declares.
    DuplicateName,
    /// A priority that an earlier line has.
    SamePriority,
    /// No task is declared.
    NoTask,
}

impl TaskFault {
    /// Its number: 1 to 7, 17 or 18.
    pub fn number(self) -> u8
        ensures { result ≡ number_of self }
    {
        match self {
            TaskFault::BadByte => 1,
            TaskFault::UnknownWord => 2,
            TaskFault::WordCount => 3,
            TaskFault::BadNumber => 4,
            TaskFault::NumberRange => 5,
            TaskFault::BadName => 6,
            TaskFault::DuplicateName => 7,
            TaskFault::SamePriority => 17,
            TaskFault::NoTask => 18,
        }
    }

    /// Its name, as it is spelled here.
    pub fn name(self) -> &'static str
        ensures { result.now ≡ name_of self }
    {
        match self {
            TaskFault::BadByte => "BadByte",
            TaskFault::UnknownWord => "UnknownWord",
            TaskFault::WordCount => "WordCount",
            TaskFault::BadNumber => "BadNumber",
            TaskFault::NumberRange => "NumberRange",
            TaskFault::BadName => "BadName",
            TaskFault::DuplicateName => "DuplicateName",
            TaskFault::SamePriority => "SamePriority",
            TaskFault::NoTask => "NoTask",
        }
    }
}

impl fmt::Display for TaskFault {
    ghost use Rattle.std.specs.Prelude.{Some};
    ghost use Rattle.tool_times.specs.Faults.{name_of};

    ghost output = { λ kind. Some (name_of kind) };

    fn fmt<W: fmt::Write>(&self, f: &mut fmt::Formatter<W>) -> fmt::Result {
        f.write_str(self.name())
    }
}
