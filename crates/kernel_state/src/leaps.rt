//! So many ticks at once.
ghost use Rattle.std.specs.Prelude.{◌≡◌, ◌≤◌, ◌<◌, ◌+◌, ◌^◌, length, max, true};
ghost use Rattle.rules_machine.specs.Threads.{thread_at};
ghost use Rattle.rules_machine.specs.Turns.{becomes, changes};
ghost use Rattle.rules_leaps.specs.Leap.{later_by};
ghost use Rattle.rules_flat_code.specs.Placed.{ArePlaced};
ghost use Rattle.kernel_threads.specs.Handlers.{CanEnd};
ghost use Rattle.kernel_threads.specs.Running.{HasRun, HasTime};
ghost use Rattle.kernel_state.specs.Kernel.{after};

use crate::parts::Parts;
use kernel_threads::Ran;
use parts_steps::Steps;
use std::sync::ledger::Ledger;
use words_numbers::Tid;

impl Parts {
    /// A thread runs by itself for at most so many ticks, but one at least. Each unit that it passes is a step. The instant stays.
    #[inline(always)]
    pub fn run<L: Ledger>(&mut self, t: Tid, most: u64, steps: &mut Steps<L>) -> Ran
        requires known { t < length self.old.names }
        requires placed { ArePlaced self.old.code (thread_at self.old.machine t).frames }
        requires ends { (thread_at self.old.machine t).is_ending ≡ true → CanEnd (length self.old.code.cleanups) (thread_at self.old.machine t) }
        requires room { HasTime (max 1 most) (thread_at self.old.machine t) }
        ensures state { self.new ≡ after (changes t (λ th. thread_at self.new.machine t)) self.old }
        ensures ran { HasRun self.old.code most self.old.machine.quantum result (thread_at self.old.machine t) (thread_at self.new.machine t) steps.old steps.new }
    {
        let (ran, moved) = self.table.run(t, &self.code, most, self.quantum, steps);
        self.named.take_in(&moved);
        ran
    }

    /// So many ticks go by. It is one step, and nothing else changes the instant.
    #[inline(always)]
    pub fn leap<L: Ledger>(&mut self, k: u64, steps: &mut Steps<L>)
        requires early { self.old.machine.now + k ≤ 10 ^ 18 }
        ensures state { self.new ≡ after (becomes (later_by k)) self.old }
        ensures step { steps.new ≡ steps.old + 1 }
    {
        self.instant = self.instant.plus(k);
        steps.tick();
    }
}
