//! Moments of the machine.
ghost use Rattle.std.specs.Prelude.{◌≡◌, ◌≤◌, ◌<◌, ◌+◌, ◌*◌, ◌^◌, MatchOption};

use std::marker::Model;

/// A moment of the machine in ticks, at most 3·10^18. Contracts see it as its number.
#[derive(Clone, Copy, Debug, PartialEq, Eq, PartialOrd, Ord)]
pub struct Tick {
    ticks: u64,
}

impl Model for Tick {
    ghost use Rattle.std.specs.Prelude.{ℕ, ◌≤◌, ◌*◌, ◌^◌};

    ghost Value = { ℕ };

    ghost view = { λ t. t.ticks };

    ghost invariant = { λ t. t.ticks ≤ 3 * 10 ^ 18 };

    ghost inverse = { λ n. record { ticks = n } };
}

impl Tick {
    /// The last moment, 3·10^18.
    pub const LAST: u64 = 3_000_000_000_000_000_000;

    /// The moment after n ticks from the start; `None` exactly where n is above 3·10^18.
    pub fn try_new(n: u64) -> Option<Tick>
        ensures { MatchOption result (3 * 10 ^ 18 < n) (λ t. (t ≡ n) × (n ≤ 3 * 10 ^ 18)) }
    {
        if n <= Tick::LAST {
            Some(Tick { ticks: n })
        } else {
            None
        }
    }

    /// The number of ticks since the start.
    pub fn get(self) -> u64
        ensures value { result ≡ self }
        ensures range { result ≤ 3 * 10 ^ 18 }
    {
        self.ticks
    }

    /// The moment n ticks later; `None` exactly where it is above 3·10^18.
    pub fn after(self, n: u64) -> Option<Tick>
        ensures { MatchOption result (3 * 10 ^ 18 < self + n) (λ t. (t ≡ self + n) × (self + n ≤ 3 * 10 ^ 18)) }
    {
        Tick::try_new(self.ticks.checked_add(n)?)
    }

    /// The moment n ticks later, which is at most 3·10^18.
    pub fn plus(self, n: u64) -> Tick
        requires { self + n ≤ 3 * 10 ^ 18 }
        ensures { result ≡ self + n }
    {
        Tick {
            ticks: self.ticks + n,
        }
    }
}

impl Default for Tick {
    ghost is_default = { λ t. t ≡ 0 };

    fn default() -> Self {
        Tick { ticks: 0 }
    }
}
