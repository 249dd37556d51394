//! Why a signal was generated.
ghost use Rattle.std.specs.Prelude.{◌≡◌};
ghost use Rattle.words_numbers.specs.Words.{sig_code_text};

/// Why a signal was generated: the `si_code` of IEEE 1003.1-2017, XSH 2.4.3.
#[derive(Clone, Copy, Debug, PartialEq, Eq)]
pub enum SigCode {
    /// By `kill` or `tkill`, SI_USER.
    User,
    /// By `sigqueue`, SI_QUEUE.
    Queue,
    /// By the expiry of a timer, SI_TIMER.
    Timer,
    /// By a message that came to an empty queue, SI_MESGQ.
    Mesgq,
}

impl SigCode {
    /// The word that a trace prints.
    pub fn text(self) -> &'static str
        ensures { result.now ≡ sig_code_text self }
    {
        match self {
            SigCode::User => "USER",
            SigCode::Queue => "QUEUE",
            SigCode::Timer => "TIMER",
            SigCode::Mesgq => "MESGQ",
        }
    }
}
