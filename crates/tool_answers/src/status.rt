//! What became of a command.
ghost use Rattle.std.specs.Prelude.{◌≡◌, ◌≤◌};
ghost use Rattle.tool_answers.specs.Statuses.{status_number};

/// What became of a command, and with it the exit status of the program.
#[derive(Clone, Copy, Debug, PartialEq, Eq)]
pub enum Status {
    /// The command was carried out to its end.
    Done,
    /// The words are no command.
    Usage,
    /// The script, the text of tasks, or the head of servers has a fault.
    Refused,
    /// The source, or the script in front of a trace, has more bytes than the command allows.
    TooLong,
    /// A read failed.
    ReadFault,
    /// A write failed.
    WriteFault,
    /// There was no memory; nothing was written.
    OutOfMemory,
    /// The trace is not the one that is due.
    Differs,
    /// The source has no line `%%`, and so no trace.
    NoTrace,
    /// A line of the trace breaks a rule of budgets.
    Breach,
}

impl Status {
    /// The exit status of the program, 0 to 9.
    pub fn number(self) -> u8
        ensures number { result ≡ status_number self }
        ensures small { result ≤ 9 }
    {
        match self {
            Status::Done => 0,
            Status::Usage => 1,
            Status::Refused => 2,
            Status::TooLong => 3,
            Status::ReadFault => 4,
            Status::WriteFault => 5,
            Status::OutOfMemory => 6,
            Status::Differs => 7,
            Status::NoTrace => 8,
            Status::Breach => 9,
        }
    }
}
