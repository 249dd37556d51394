//! Numbers of threads and of objects.
ghost use Rattle.std.specs.Prelude.{◌≡◌, ◌≤◌, ◌<◌, MatchOption};

use std::marker::Model;

/// A thread's number, below 256, in order of declaration. Contracts see it as its number.
#[derive(Clone, Copy, Debug, PartialEq, Eq, PartialOrd, Ord)]
pub struct Tid {
    number: u16,
}

impl Model for Tid {
    ghost use Rattle.std.specs.Prelude.{ℕ, ◌<◌};

    ghost Value = { ℕ };

    ghost view = { λ t. t.number };

    ghost invariant = { λ t. t.number < 256 };

    ghost inverse = { λ n. record { number = n } };
}

impl Tid {
    /// The thread of number n; `None` exactly for 256 and above.
    pub fn try_new(n: u16) -> Option<Tid>
        ensures { MatchOption result (256 ≤ n) (λ t. (t ≡ n) × (n < 256)) }
    {
        if n < 256 {
            Some(Tid { number: n })
        } else {
            None
        }
    }

    /// The number, below 256.
    pub fn get(self) -> u16
        ensures value { result ≡ self }
        ensures small { result < 256 }
    {
        self.number
    }
}

impl Default for Tid {
    ghost is_default = { λ t. t ≡ 0 };

    fn default() -> Self {
        Tid { number: 0 }
    }
}

/// An object's number among those of its kind, below 256, in order of declaration. Contracts see it as its number.
#[derive(Clone, Copy, Debug, PartialEq, Eq, PartialOrd, Ord)]
pub struct ObjId {
    number: u16,
}

impl Model for ObjId {
    ghost use Rattle.std.specs.Prelude.{ℕ, ◌<◌};

    ghost Value = { ℕ };

    ghost view = { λ k. k.number };

    ghost invariant = { λ k. k.number < 256 };

    ghost inverse = { λ n. record { number = n } };
}

impl ObjId {
    /// The object of number n; `None` exactly for 256 and above.
    pub fn try_new(n: u16) -> Option<ObjId>
        ensures { MatchOption result (256 ≤ n) (λ k. (k ≡ n) × (n < 256)) }
    {
        if n < 256 {
            Some(ObjId { number: n })
        } else {
            None
        }
    }

    /// The number, below 256.
    pub fn get(self) -> u16
        ensures value { result ≡ self }
        ensures small { result < 256 }
    {
        self.number
    }
}

impl Default for ObjId {
    ghost is_default = { λ k. k ≡ 0 };

    fn default() -> Self {
        ObjId { number: 0 }
    }
}
