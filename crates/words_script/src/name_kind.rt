//! The kinds of things that names stand for.
ghost use Rattle.std.specs.Prelude.{◌≡◌};
ghost use Rattle.words_script.specs.Kinds.{kind_number, same_kind};

/// What a name may stand for. The things of each kind are numbered by themselves.
#[derive(Clone, Copy)]
pub enum NameKind {
    Thread,
    Mutex,
    Cond,
    Sem,
    Queue,
    Timer,
    Handler,
    Cleanup,
}

impl NameKind {
    // A number that tells kinds apart.
    fn number(self) -> u8
        ensures { result ≡ kind_number self }
    {
        match self {
            NameKind::Thread => 0,
            NameKind::Mutex => 1,
            NameKind::Cond => 2,
            NameKind::Sem => 3,
            NameKind::Queue => 4,
            NameKind::Timer => 5,
            NameKind::Handler => 6,
            NameKind::Cleanup => 7,
        }
    }

    /// Whether it is the same kind.
    pub fn is_same(self, other: NameKind) -> bool
        ensures { result ≡ same_kind self other }
    {
        self.number() == other.number()
    }
}
