//! CLOCK_REALTIME is set.
ghost use Rattle.std.specs.Prelude.{◌≡◌, ◌<◌, ◌≤◌, ◌*◌, ◌^◌, ℕ, Some, is_some, length, true};
ghost use Rattle.rules_machine.specs.Clock.{thread_moved, timer_moved};
ghost use Rattle.rules_machine.specs.State as machine;
ghost use Rattle.rules_machine.specs.Threads.{thread_in};
ghost use Rattle.kernel_threads.specs.RealDues.{real_due_in};
ghost use Rattle.kernel_timers.specs.Timers.{timer_in};
ghost use Rattle.kernel_table.specs.Table as table;
ghost use Rattle.kernel_table.specs.Table.{with_thread, with_timer};
ghost use Rattle.kernel_table.specs.Movers.{KeepsPriorities};
ghost use Rattle.kernel_table.specs.Settings.{EachModest, IsModest, TimersAreModest, WaitsAreModest, move_of, threads_moved, timer_real_due, timers_moved, times_moved};

use crate::real_items::real_due;
use crate::table::Table;
use crate::timers::reset;
use crate::times::retime;
use words_numbers::{ObjId, Tick, Tid};

/// A setting of CLOCK_REALTIME: when, what the clock read before, and what it reads then.
#[derive(Clone, Copy)]
pub struct Setting {
    pub at: Tick,
    pub before: u64,
    pub reading: u64,
}

impl Setting {
    /// When a time comes that was due at a tick.
    fn due(&self, due: Tick) -> Tick
        requires early { self.now.at ≤ 10 ^ 18 }
        requires reading { self.now.reading ≤ 10 ^ 18 }
        requires modest { IsModest self.now due }
        ensures { result ≡ move_of self.now due }
    {
        let comes = due.get() + self.before;
        self.at
            .plus(comes.saturating_sub(self.at.get() + self.reading))
    }
}

impl Table {
    // The wait of a thread for a time on the clock ends by itself then; any other stays as it is.
    fn time_real_wait(&mut self, t: Tid, at: Tick)
        requires { t < length self.old.threads }
        ensures { KeepsPriorities (with_thread t (thread_moved (λ (due : ℕ). at))) self.old self.new }
    {
        self.threads.get_mut(t).move_real_due(at);
        retime(&self.threads, &mut self.wheel, t);
    }

    // The wait of a thread, where it is for a time on the clock, ends when that comes.
    fn move_wait(&mut self, t: Tid, set: &Setting)
        requires known { t < length self.old.threads }
        requires early { set.now.at ≤ 10 ^ 18 }
        requires reading { set.now.reading ≤ 10 ^ 18 }
        requires modest { EachModest set.now (real_due_in (thread_in self.old.threads t).status) }
        ensures { KeepsPriorities (with_thread t (thread_moved (move_of set.now))) self.old self.new }
    {
        if let Some(due) = self.threads.get(t).real_due() {
            self.time_real_wait(t, set.due(due));
        }
    }

    // Only the threads that wait for such a time are looked at.
    fn move_waits(&mut self, set: &Setting)
        requires early { set.now.at ≤ 10 ^ 18 }
        requires reading { set.now.reading ≤ 10 ^ 18 }
        requires modest { WaitsAreModest set.now self.old }
        ensures { KeepsPriorities (threads_moved (move_of set.now) (length self.old.threads)) self.old self.new }
    {
        let mut from = 0;
        while let Some(t) = self.first_real_wait(from) {
            self.move_wait(t, set);
            from = t.get() + 1;
        }
    }

    // The next expiry of a timer, which is a time on the clock, is then.
    fn time_expiry(&mut self, k: ObjId, at: Tick)
        requires known { k < length self.old.timers }
        requires real { is_some (timer_real_due (timer_in self.old.timers k)) ≡ true }
        ensures { self.new ≡ with_timer k (λ (x : machine.Timer). record x { due = Some at }) self.old }
    {
        self.timers.set_due(k, at);
        reset(&self.timers, &mut self.wheel, k);
    }

    // The next expiry of a timer, where that is a time on the clock, is when that comes.
    fn move_expiry(&mut self, k: ObjId, set: &Setting)
        requires known { k < length self.old.timers }
        requires early { set.now.at ≤ 10 ^ 18 }
        requires reading { set.now.reading ≤ 10 ^ 18 }
        requires modest { EachModest set.now (timer_real_due (timer_in self.old.timers k)) }
        ensures { self.new ≡ with_timer k (timer_moved (move_of set.now)) self.old }
    {
        if let Some(due) = real_due(self.timers.get(k)) {
            self.time_expiry(k, set.due(due));
        }
    }

    // Only the timers that expire at such a time are looked at.
    fn move_expiries(&mut self, set: &Setting)
        requires early { set.now.at ≤ 10 ^ 18 }
        requires reading { set.now.reading ≤ 10 ^ 18 }
        requires modest { TimersAreModest set.now self.old }
        ensures { self.new ≡ timers_moved (move_of set.now) (length self.old.timers) self.old }
    {
        let mut from = 0;
        while let Some(k) = self.first_real_expiry(from) {
            self.move_expiry(k, set);
            from = k.get() + 1;
        }
    }

    /// CLOCK_REALTIME is set: each time on it that a thread waits for, or a timer, comes when the clock then reads it. No execution
    /// priority changes.
    pub fn move_times(&mut self, set: &Setting)
        requires early { set.now.at ≤ 10 ^ 18 }
        requires reading { set.now.reading ≤ 10 ^ 18 }
        requires waits { WaitsAreModest set.now self.old }
        requires timers { TimersAreModest set.now self.old }
        ensures { KeepsPriorities (times_moved (move_of set.now)) self.old self.new }
    {
        self.move_waits(set);
        self.move_expiries(set);
    }
}
