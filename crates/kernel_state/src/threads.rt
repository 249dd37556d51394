//! What can be asked of a thread.
ghost use Rattle.std.specs.Prelude.{◌≡◌, ◌≤◌, ◌<◌, ◌*◌, ◌^◌, length, Some};
ghost use Rattle.rules_machine.specs.Threads.{moment_of, number_of, real_time, thread_at};
ghost use Rattle.rules_flat_code.specs.KnownCalls.{IsMoment, IsOperand};
ghost use Rattle.rules_machine.specs.Ticks.{tick_end};
ghost use Rattle.rules_machine.specs.Clock.{is_on_real};
ghost use Rattle.kernel_threads.specs.Ends.{end_of};
ghost use Rattle.kernel_threads.specs.RealDues.{real_due_if};
ghost use Rattle.kernel_state.specs.RealTimes.{ComesModestly};

use crate::parts::Parts;
use kernel_threads::TickEnd;
use words_numbers::{Tick, Tid};
use words_script::{Moment, Operand};

impl Parts {
    /// The number that an operand of its call stands for, at most 2·10^18.
    pub fn number(&self, t: Tid, operand: &Operand) -> u64
        requires known { t < length self.now.names }
        requires fits { IsOperand operand.now }
        ensures value { result ≡ number_of self.now.machine t operand.now }
        ensures limit { result ≤ 2 * 10 ^ 18 }
    {
        self.table.thread(t).number(operand)
    }

    /// The tick that an operand of its call stands for, at most 2·10^18.
    pub fn tick(&self, t: Tid, operand: &Operand) -> Tick
        requires known { t < length self.now.names }
        requires fits { IsOperand operand.now }
        ensures value { result ≡ number_of self.now.machine t operand.now }
        ensures limit { result ≤ 2 * 10 ^ 18 }
    {
        match Tick::try_new(self.number(t, operand)) {
            Some(at) => at,
            None => unreachable!(),
        }
    }

    /// The reading of CLOCK_REALTIME.
    pub fn real_time(&self) -> u64
        ensures { result ≡ real_time self.now.machine }
    {
        // so it is known which threads there are
        let _ = &self.names;
        self.clock.reading(self.instant)
    }

    /// When an absolute time of its call comes, as the clocks stand: now, where its clock has read it.
    pub fn moment(&self, t: Tid, at: &Moment) -> Tick
        requires known { t < length self.now.names }
        requires fits { IsMoment at.now }
        requires early { self.now.machine.now ≤ 10 ^ 18 }
        ensures value { result ≡ moment_of self.now.machine t at.now }
        ensures modest { ComesModestly self.now.machine.clock (real_due_if (Some result) (is_on_real at.now)) }
    {
        match at {
            Moment::Monotonic(time) => self.tick(t, time),
            Moment::Realtime(time) => {
                let left = self.number(t, time).saturating_sub(self.real_time());
                self.instant.plus(left)
            }
        }
    }

    /// The rule of the tick's end.
    pub fn tick_end(&self, t: Tid, was_high: bool) -> TickEnd
        requires { t < length self.now.names }
        ensures { end_of result ≡ tick_end was_high self.now.machine.quantum (thread_at self.now.machine t) }
    {
        self.table.thread(t).tick_end(was_high, self.quantum)
    }
}
