//! What a call answers.
ghost use Rattle.std.specs.Prelude.{◌≡◌};
ghost use Rattle.words_numbers.specs.Words.{res_text};

/// What a call answers: zero, or an error number of IEEE 1003.1-2017, XSH 2.3.
#[derive(Clone, Copy, Debug, PartialEq, Eq)]
pub enum Res {
    Zero,
    Again,
    Busy,
    Deadlk,
    Intr,
    Inval,
    Msgsize,
    Overflow,
    Perm,
    Srch,
    Timedout,
}

impl Res {
    /// `0`, or the name of the error as `<errno.h>` spells it.
    pub fn text(self) -> &'static str
        ensures { result.now ≡ res_text self }
    {
        match self {
            Res::Zero => "0",
            Res::Again => "EAGAIN",
            Res::Busy => "EBUSY",
            Res::Deadlk => "EDEADLK",
            Res::Intr => "EINTR",
            Res::Inval => "EINVAL",
            Res::Msgsize => "EMSGSIZE",
            Res::Overflow => "EOVERFLOW",
            Res::Perm => "EPERM",
            Res::Srch => "ESRCH",
            Res::Timedout => "ETIMEDOUT",
        }
    }
}
