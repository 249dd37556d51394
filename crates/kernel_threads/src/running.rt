//! How a thread runs by itself, and the charge of these ticks.
ghost use Rattle.std.specs.Prelude.{◌≡◌, ◌≤◌, ◌+◌, ◌-◌, ◌^◌, false, max, min, option_map};
ghost use Rattle.rules_machine.specs.Servers.{has_high};
ghost use Rattle.rules_leaps.specs.Leap.{capacity_left};
ghost use Rattle.rules_leaps.specs.Quiet.{server_after};
ghost use Rattle.kernel_threads.specs.Handlers.{CanTake};
ghost use Rattle.kernel_threads.specs.Passing.{HasSpent};
ghost use Rattle.kernel_threads.specs.Running.{HasRun, HasTime};

use crate::ran::Ran;
use crate::server::charge_server;
use crate::thread::Thread;
use parts_steps::Steps;
use script_code::Code;
use std::sync::ledger::Ledger;
use words_script::Policy;

impl Thread {
    /// Runs by itself for at most so many ticks, but one at least: past each unit that only takes time and is over before they are, and then
    /// to the end of one more, of its round robin interval or of its capacity, whichever is nearest. Each unit that it passes is a step.
    #[inline(always)]
    pub fn run<L: Ledger>(
        &mut self,
        code: &Code,
        most: u64,
        quantum: u64,
        steps: &mut Steps<L>,
    ) -> Ran
        requires can { CanTake code.now self.old }
        requires room { HasTime (max 1 most) self.old }
        ensures { HasRun code.now most quantum result self.old self.new steps.old steps.new }
    {
        match self.policy {
            Policy::Fifo(_) => self.run_unit(code, most, false, steps),
            Policy::Rr(_) => self.run_slice(code, most, quantum, steps),
            Policy::Sporadic(_) => self.run_capacity(code, most, steps),
            Policy::Strict(_) => self.run_capacity(code, most, steps),
        }
    }

    // At most so many ticks, but one at least, to the end of a unit. They count for the thread alone.
    #[inline(always)]
    fn run_unit<L: Ledger>(
        &mut self,
        code: &Code,
        most: u64,
        was_high: bool,
        steps: &mut Steps<L>,
    ) -> Ran
        requires can { CanTake code.now self.old }
        requires room { self.old.ticks + max 1 most ≤ 2 ^ 63 }
        ensures spent { HasSpent code.now most result self.old.slice self.old.server self.old self.new steps.old steps.new }
        ensures high { result.was_high ≡ was_high }
    {
        let taken = self.take(code, most, steps);
        let ticks = (most - taken.passed).min(taken.left).max(1);
        self.ticks += taken.passed + ticks;
        self.frames.charge(taken.left, ticks);
        Ran {
            passed: taken.passed,
            unit: taken.unit,
            ticks,
            is_complete: taken.left <= ticks,
            was_high,
        }
    }

    // The same, to the end of its round robin interval, for which they count too.
    #[inline(always)]
    fn run_slice<L: Ledger>(
        &mut self,
        code: &Code,
        most: u64,
        quantum: u64,
        steps: &mut Steps<L>,
    ) -> Ran
        requires can { CanTake code.now self.old }
        requires room { HasTime (max 1 most) self.old }
        ensures spent { HasSpent code.now (min most (quantum - self.old.slice)) result (self.old.slice + (result.passed + result.ticks)) self.old.server self.old self.new steps.old steps.new }
        ensures high { result.was_high ≡ false }
    {
        let slice = quantum.saturating_sub(self.slice);
        let ran = self.run_unit(code, most.min(slice), false, steps);
        self.slice += ran.passed + ran.ticks;
        ran
    }

    // The same, to the end of its capacity where it has its high priority, from which they are taken then.
    #[inline(always)]
    fn run_capacity<L: Ledger>(&mut self, code: &Code, most: u64, steps: &mut Steps<L>) -> Ran
        requires can { CanTake code.now self.old }
        requires room { HasTime (max 1 most) self.old }
        ensures spent { HasSpent code.now (min most (capacity_left most self.old.server)) result self.old.slice (option_map (server_after (result.passed + result.ticks)) self.old.server) self.old self.new steps.old steps.new }
        ensures high { result.was_high ≡ has_high self.old.server }
    {
        let was_high = self.has_high();
        let lasts = if was_high { self.capacity_left() } else { most };
        let ran = self.run_unit(code, most.min(lasts), was_high, steps);
        charge_server(&mut self.server, ran.passed + ran.ticks);
        ran
    }
}
