//! The interval timers.
ghost use Rattle.std.specs.Prelude.{◌≡◌, ◌≤◌, ◌<◌, ◌*◌, ◌^◌, Some, length};
ghost use Rattle.rules_machine.specs.Signals.{with_overrun_told};
ghost use Rattle.rules_machine.specs.Threads.{timer_at};
ghost use Rattle.rules_machine.specs.Timers.{armed, armed_again, is_pending_from, overrun_once_more, record_of_timer, timer_moment};
ghost use Rattle.rules_machine.specs.Turns.{changes_timer};
ghost use Rattle.kernel_threads.specs.RealDues.{real_due_if};
ghost use Rattle.kernel_state.specs.Kernel.{after};
ghost use Rattle.kernel_state.specs.RealTimes.{ComesModestly};

use crate::parts::Parts;
use kernel_signals::SignalRecord;
use words_numbers::{ObjId, Tick};

impl Parts {
    /// The timer is due at that tick, and then again after each interval of so many ticks, at most 10^18; with an interval of 0 once.
    /// With `None` it is disarmed. The flag says whether that tick is when CLOCK_REALTIME reads the time that the timer is set to.
    pub fn set_timer(&mut self, k: ObjId, due: Option<Tick>, is_reading: bool, interval: u64)
        requires known { k < length self.old.machine.timers }
        requires interval { interval ≤ 10 ^ 18 }
        requires modest { ComesModestly self.old.machine.clock (real_due_if due is_reading) }
        ensures { self.new ≡ after (changes_timer k (armed due is_reading interval)) self.old }
    {
        self.table.set_timer(k, due, is_reading, interval);
    }

    /// When an absolute time of a timer comes, as the clocks stand: now, where the timer's clock has read it.
    pub fn timer_moment(&self, k: ObjId, at: Tick) -> Tick
        requires known { k < length self.now.machine.timers }
        requires early { self.now.machine.now ≤ 10 ^ 18 }
        requires limit { at ≤ 2 * 10 ^ 18 }
        ensures value { result ≡ timer_moment self.now.machine k at }
        ensures modest { ComesModestly self.now.machine.clock (real_due_if (Some result) (timer_at self.now.machine k).is_real) }
    {
        if self.timer(k).is_real() {
            let left = at.get().saturating_sub(self.real_time());
            self.instant.plus(left)
        } else {
            at
        }
    }

    /// After an expiry now: the timer is due again after its interval, or disarmed where it has none.
    #[inline(always)]
    pub fn arm_timer_again(&mut self, k: ObjId)
        requires known { k < length self.old.machine.timers }
        requires early { self.old.machine.now ≤ 10 ^ 18 }
        ensures { self.new ≡ after (changes_timer k (armed_again self.old.machine.now)) self.old }
    {
        self.table.arm_timer_again(k, self.instant);
    }

    /// The timer expired while its signal was pending. The count stops at 2,147,483,647.
    pub fn overrun_once_more(&mut self, k: ObjId)
        requires { k < length self.old.machine.timers }
        ensures { self.new ≡ after (changes_timer k overrun_once_more) self.old }
    {
        self.table.overrun_once_more(k);
    }

    /// The timer's signal was delivered or accepted: the expiries counted since it became pending are its overrun. Nothing changes where
    /// there is no such timer.
    pub(crate) fn tell_timer_overrun(&mut self, k: ObjId)
        ensures { self.new ≡ after (changes_timer k with_overrun_told) self.old }
    {
        if (k.get() as usize) < self.table.timer_count() {
            self.table.tell_overrun(k);
        }
    }

    /// The record of an expiry of the timer.
    pub fn timer_record(&self, k: ObjId) -> SignalRecord
        requires { k < length self.now.machine.timers }
        ensures { result ≡ record_of_timer k (timer_at self.now.machine k) }
    {
        let timer = self.timer(k);
        SignalRecord::of_timer(k, timer.signal(), timer.value())
    }

    /// Whether a record of the timer is pending.
    pub fn is_timer_pending(&self, k: ObjId) -> bool
        ensures { result ≡ is_pending_from k self.now.machine }
    {
        self.pending.is_pending_from_timer(k)
    }
}
