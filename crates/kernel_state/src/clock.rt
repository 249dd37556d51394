//! CLOCK_REALTIME.
ghost use Rattle.std.specs.Prelude.{◌≡◌, ◌+◌, ◌-◌, ◌≤◌, ◌^◌};
ghost use Rattle.rules_machine.specs.Clock.{clock_at};

use std::marker::Model;
use words_numbers::Tick;

/// How far CLOCK_REALTIME is ahead of CLOCK_MONOTONIC, and how far behind, in ticks.
#[derive(Drop)]
pub(crate) struct Clock {
    ahead: u64,
    behind: u64,
}

impl Model for Clock {
    ghost use Rattle.std.specs.Prelude.{◌≤◌, ◌^◌};
    ghost use Rattle.rules_machine.specs.State as machine;

    ghost Value = { machine.Clock };

    ghost view = { λ c. record { ahead = c.ahead; behind = c.behind } };

    ghost invariant = { λ c. (c.ahead ≤ 10 ^ 18) × (c.behind ≤ 10 ^ 18) };
}

impl Clock {
    /// It reads what CLOCK_MONOTONIC reads.
    pub(crate) fn new() -> Clock
        ensures { result ≡ record { ahead = 0; behind = 0 } }
    {
        Clock {
            ahead: 0,
            behind: 0,
        }
    }

    /// It reads that at an instant.
    pub(crate) fn at(reading: u64, now: Tick) -> Clock
        requires reading { reading ≤ 10 ^ 18 }
        requires early { now ≤ 10 ^ 18 }
        ensures { result ≡ clock_at reading now }
    {
        Clock {
            ahead: reading.saturating_sub(now.get()),
            behind: now.get().saturating_sub(reading),
        }
    }

    /// Its reading at an instant.
    pub(crate) fn reading(&self, now: Tick) -> u64
        ensures { result ≡ now + self.now.ahead - self.now.behind }
    {
        (now.get() + self.ahead).saturating_sub(self.behind)
    }
}
