//! How many of the pending records each timer generated.
ghost use Rattle.std.specs.Prelude.{◌≡◌, ◌<◌, nat_lt, replicate};
ghost use Rattle.kernel_signals.specs.Timed.{HasRoom, count_at, with_one, with_one_fewer};

use std::marker::Model;
use words_numbers::ObjId;

/// A count for each timer, so that no record is looked at to tell whether a timer has one.
#[derive(Drop)]
pub(crate) struct Timed {
    counts: [u8; 256],
}

impl Model for Timed {
    ghost use Rattle.std.specs.Prelude.{List, ℕ};

    ghost Value = { List ℕ };

    ghost view = { λ t. t.counts };
}

impl Timed {
    pub(crate) fn none() -> Timed
        ensures { result ≡ replicate 256 0 }
    {
        Timed { counts: [0; 256] }
    }

    /// A record becomes pending that this timer generated, or none.
    pub(crate) fn add(&mut self, timer: Option<ObjId>)
        requires { HasRoom self.old timer }
        ensures { self.new ≡ with_one timer self.old }
    {
        if let Some(k) = timer {
            self.counts[k.get() as usize] += 1;
        }
    }

    /// A record is pending no more that this timer generated, or none.
    pub(crate) fn remove(&mut self, timer: Option<ObjId>)
        ensures { self.new ≡ with_one_fewer timer self.old }
    {
        if let Some(k) = timer {
            let count = &mut self.counts[k.get() as usize];
            *count = count.saturating_sub(1);
        }
    }

    pub(crate) fn has_any(&self, k: ObjId) -> bool
        ensures value { result ≡ nat_lt 0 (count_at self.now k) }
        ensures small { k < 256 }
    {
        0 < self.counts[k.get() as usize]
    }
}
