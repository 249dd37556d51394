//! The interval timers, and when they are due.
ghost use Rattle.std.specs.Prelude.{◌≡◌, ◌<◌, ◌≤◌, ◌+◌, ◌^◌, length, slice_set};
ghost use Rattle.rules_machine.specs.Signals.{with_overrun_told};
ghost use Rattle.rules_machine.specs.Timers.{armed, armed_again, overrun_once_more};
ghost use Rattle.kernel_timers.specs.Timers.{timer_in};
ghost use Rattle.kernel_table.specs.Table as table;
ghost use Rattle.kernel_table.specs.Table.{with_timer};
ghost use Rattle.kernel_table.specs.Tied.{expiring};

use crate::real_items::{drop_expiry, keep_expiry};
use crate::table::Table;
use kernel_timers::{Timer, Timers};
use parts_wheel::Wheel;
use words_numbers::{Item, ObjId, Tick};

// The timer expires next then; with `None` it is disarmed.
#[inline(always)]
fn set_expiry(wheel: &mut Wheel, k: ObjId, due: Option<Tick>)
    requires timer { k < 256 }
    requires numbers { length wheel.old.dues ≡ 1024 }
    ensures { wheel.new.dues ≡ slice_set wheel.old.dues (768 + k) due }
{
    wheel.set_due(Item::Timer(k).number(), due);
}

// The expiry of the timer is armed as it is due now.
pub(crate) fn reset(timers: &Timers, wheel: &mut Wheel, k: ObjId)
    requires timer { k < length timers.now }
    requires numbers { length wheel.old.dues ≡ 1024 }
    ensures { wheel.new.dues ≡ expiring k (timer_in timers.now k) wheel.old.dues }
{
    wheel.set_due(Item::Timer(k).number(), timers.get(k).due());
}

impl Table {
    /// How many timers there are, at most 32.
    pub fn timer_count(&self) -> usize
        ensures value { result ≡ length self.now.timers }
        ensures few { result ≤ 32 }
    {
        self.timers.count()
    }

    /// A timer as it stands.
    pub fn timer(&self, k: ObjId) -> &Timer
        requires { k < length self.now.timers }
        ensures { result.now ≡ timer_in self.now.timers k }
    {
        self.timers.get(k)
    }

    /// The timer is due at that tick, and then again after each interval of so many ticks, at most 10^18; with an interval of 0 once.
    /// With `None` it is disarmed.
    pub fn set_timer(&mut self, k: ObjId, due: Option<Tick>, is_reading: bool, interval: u64)
        requires known { k < length self.old.timers }
        requires interval { interval ≤ 10 ^ 18 }
        ensures { self.new ≡ with_timer k (armed due is_reading interval) self.old }
    {
        self.timers.set_timer(k, due, is_reading, interval);
        reset(&self.timers, &mut self.wheel, k);
        keep_expiry(&self.timers, &mut self.real_expiries, k);
    }

    /// After an expiry now, at most at 10^18: the timer is due again after its interval, or disarmed where it has none.
    #[inline(always)]
    pub fn arm_timer_again(&mut self, k: ObjId, now: Tick)
        requires known { k < length self.old.timers }
        requires early { now ≤ 10 ^ 18 }
        ensures { self.new ≡ with_timer k (armed_again now) self.old }
    {
        drop_expiry(&mut self.real_expiries, k);
        let due = self.timers.arm_again(k, now);
        set_expiry(&mut self.wheel, k, due);
    }

    /// The timer expired while its signal was pending. The count stops at 2,147,483,647.
    pub fn overrun_once_more(&mut self, k: ObjId)
        requires { k < length self.old.timers }
        ensures { self.new ≡ with_timer k overrun_once_more self.old }
    {
        self.timers.overrun_once_more(k);
    }

    /// The timer's signal was delivered or accepted: the expiries counted since it became pending are its overrun, and are counted anew.
    pub fn tell_overrun(&mut self, k: ObjId)
        requires { k < length self.old.timers }
        ensures { self.new ≡ with_timer k with_overrun_told self.old }
    {
        self.timers.tell_overrun(k);
    }
}
