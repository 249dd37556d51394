//! The forms of a trace's lines.
ghost use Rattle.std.specs.Prelude.{◌≡◌, ◌≤◌};
ghost use Rattle.tool_check.specs.Form.{form_word, parts, numbers_in};

/// The form of a line of a trace.
#[derive(Clone, Copy, Debug, PartialEq, Eq)]
pub enum Form {
    Dispatch,
    Idle,
    Start,
    Return,
    Deliver,
    Activate,
    Exhaust,
    Plan,
    Refill,
    Cancel,
    Exit,
    Killed,
    End,
    /// The closing line of a thread, without a budget.
    Thread,
    /// The closing line of a thread with the budget of its sporadic server.
    Budget,
}

/// What may stand in a place of a line, behind the word of its form.
#[derive(Clone, Copy)]
pub(crate) enum Part {
    /// The name of a thread.
    Name,
    /// A number without leading zeros, at most 3·10^18.
    Number,
    /// The name of a signal.
    Signal,
    /// The first word of a call.
    Call,
    /// The answer of a call.
    Answer,
    /// The code of a signal.
    Code,
    Ticks,
    High,
    Init,
    Refilled,
    Capacity,
}

impl Form {
    /// The word of the line that says its form: `thread` for both closing lines.
    pub fn word(self) -> &'static str
        ensures { result.now ≡ form_word self }
    {
        match self {
            Form::Dispatch => "dispatch",
            Form::Idle => "idle",
            Form::Start => "start",
            Form::Return => "return",
            Form::Deliver => "deliver",
            Form::Activate => "activate",
            Form::Exhaust => "exhaust",
            Form::Plan => "plan",
            Form::Refill => "refill",
            Form::Cancel => "cancel",
            Form::Exit => "exit",
            Form::Killed => "killed",
            Form::End => "end",
            Form::Thread => "thread",
            Form::Budget => "thread",
        }
    }

    // What stands behind that word.
    pub(crate) fn parts(self) -> &'static [Part]
        ensures value { result.now ≡ parts self }
        ensures few { numbers_in result.now ≤ 5 }
    {
        match self {
            Form::Idle | Form::End => &[],
            Form::Start | Form::Exhaust | Form::Cancel | Form::Exit => &[Part::Name],
            Form::Dispatch | Form::Activate => &[Part::Name, Part::Number],
            Form::Plan | Form::Refill => &[Part::Name, Part::Number, Part::Number],
            Form::Return => &[Part::Name, Part::Call, Part::Answer, Part::Number],
            Form::Deliver => &[Part::Name, Part::Signal, Part::Code, Part::Number],
            Form::Killed => &[Part::Signal],
            Form::Thread => &[Part::Name, Part::Ticks, Part::Number],
            Form::Budget => &[
                Part::Name,
                Part::Ticks,
                Part::Number,
                Part::High,
                Part::Number,
                Part::Init,
                Part::Number,
                Part::Refilled,
                Part::Number,
                Part::Capacity,
                Part::Number,
            ],
        }
    }
}
