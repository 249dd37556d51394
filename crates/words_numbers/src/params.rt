//! The parameters of a sporadic server.
ghost use Rattle.std.specs.Prelude.{◌≡◌, ◌≤◌, ◌<◌, ◌^◌, Some, None, MatchOption};
ghost use Rattle.words_numbers.specs.Parameters.{Parameters, AreParameters};

use crate::{GREATEST_NUMBER, Prio};
use std::marker::Model;

/// The parameters of SCHED_SPORADIC, IEEE 1003.1-2017, XSH 2.8.4: `sched_priority`, `sched_ss_low_priority`, `sched_ss_repl_period`,
/// `sched_ss_init_budget` and `sched_ss_max_repl`. The low priority is below the high one, the budget is at least one tick
/// and at most the period, the period is at most 10^18 ticks, and 1 to 16 replenishments may be pending.
#[derive(Clone, Copy, Debug, PartialEq, Eq)]
pub struct Params {
    pub high: Prio,
    pub low: Prio,
    pub period: u64,
    pub budget: u64,
    pub max: u8,
}

impl Model for Params {
    ghost use Rattle.words_numbers.specs.Parameters.{Parameters, AreParameters};

    ghost Value = { Parameters };

    ghost view = { λ p. record { high = p.high; low = p.low; period = p.period; budget = p.budget; max = p.max } };

    ghost invariant = { λ p. AreParameters (record {
      high = p.high;
      low = p.low;
      period = p.period;
      budget = p.budget;
      max = p.max;
    }) };

    ghost inverse = { λ p. record { high = p.high; low = p.low; period = p.period; budget = p.budget; max = p.max } };
}

impl Params {
    /// The parameters in their ranges; `None` exactly where one is out of its range.
    pub fn try_new(high: Prio, low: Prio, period: u64, budget: u64, max: u8) -> Option<Params>
        ensures { let wanted : Parameters =
            record { high = high; low = low; period = period; budget = budget; max = max } in
            MatchOption result (¬ (AreParameters wanted)) (λ p. (p ≡ wanted) × (AreParameters wanted)) }
    {
        if low >= high || budget < 1 || budget > period {
            return None;
        }
        if period > GREATEST_NUMBER || max < 1 || max > 16 {
            return None;
        }
        Some(Params {
            high,
            low,
            period,
            budget,
            max,
        })
    }
}
