//! Priorities.
ghost use Rattle.std.specs.Prelude.{◌≡◌, ◌≤◌, MatchOption};

use std::marker::Model;

/// A priority, 1 to 255; a greater number is more urgent. Contracts see it as its number.
#[derive(Clone, Copy, Debug, PartialEq, Eq, PartialOrd, Ord)]
pub struct Prio {
    level: u8,
}

impl Model for Prio {
    ghost use Rattle.std.specs.Prelude.{ℕ, ◌≤◌};

    ghost Value = { ℕ };

    ghost view = { λ p. p.level };

    ghost invariant = { λ p. 1 ≤ p.level };

    ghost inverse = { λ n. record { level = n } };
}

impl Prio {
    /// The priority n; `None` exactly for 0.
    pub fn try_new(n: u8) -> Option<Prio>
        ensures { MatchOption result (n ≡ 0) (λ p. (p ≡ n) × (1 ≤ n)) }
    {
        if n > 0 { Some(Prio { level: n }) } else { None }
    }

    /// The number, 1 to 255.
    pub fn get(self) -> u8
        ensures value { result ≡ self }
        ensures above_zero { 1 ≤ result }
        ensures small { result ≤ 255 }
    {
        self.level
    }
}

impl Default for Prio {
    ghost is_default = { λ p. p ≡ 1 };

    fn default() -> Self {
        Prio { level: 1 }
    }
}
