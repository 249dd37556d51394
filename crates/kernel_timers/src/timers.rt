//! The timers by their numbers.
ghost use Rattle.std.specs.Prelude.{◌≡◌, ◌<◌, ◌≤◌, ◌^◌, length, IfOk, Some};
ghost use Rattle.rules_machine.specs.Declarations.{timers_of};
ghost use Rattle.rules_machine.specs.State as machine;
ghost use Rattle.rules_machine.specs.Signals.{with_overrun_told};
ghost use Rattle.rules_machine.specs.Timers.{armed, armed_again, overrun_once_more};
ghost use Rattle.kernel_timers.specs.Timers.{timer_in, with_timer};

use crate::open::open_timers;
use crate::timer::Timer;
use std::alloc::{AllocError, Global};
use std::marker::Model;
use words_numbers::{ObjId, Tick};
use words_script::Script;

/// The interval timers of a script, by their numbers in the order of declaration.
#[derive(Drop)]
pub struct Timers {
    items: Vec<Timer>,
}

impl Model for Timers {
    ghost use Rattle.std.specs.Prelude.{List};
    ghost use Rattle.rules_machine.specs.State as machine;

    ghost Value = { List machine.Timer };

    ghost view = { λ t. t.items.items };
}

impl Timers {
    /// The timers that the script declares, disarmed.
    pub fn open(alloc: Global, script: &Script) -> Result<Timers, AllocError>
        ensures { IfOk result (λ timers. timers ≡ timers_of script.now) }
    {
        let items = open_timers(alloc, script)?;
        Ok(Timers { items })
    }

    /// How many timers there are.
    pub fn count(&self) -> usize
        ensures { result ≡ length self.now }
    {
        self.items.len()
    }

    /// A timer as it stands.
    pub fn get(&self, k: ObjId) -> &Timer
        requires { k < length self.now }
        ensures { result.now ≡ timer_in self.now k }
    {
        &self.items[k.get() as usize]
    }

    /// The timer is due at that tick, and then again after each interval of so many ticks, at most 10^18; with an interval of 0 once.
    /// With None it is disarmed.
    pub fn set_timer(&mut self, k: ObjId, due: Option<Tick>, is_reading: bool, interval: u64)
        requires known { k < length self.old }
        requires interval { interval ≤ 10 ^ 18 }
        ensures { self.new ≡ with_timer k (armed due is_reading interval) self.old }
    {
        self.items[k.get() as usize].arm(due, is_reading, interval);
    }

    /// When the timer expires next is moved.
    pub fn set_due(&mut self, k: ObjId, due: Tick)
        requires known { k < length self.old }
        ensures { self.new ≡ with_timer k (λ (x : machine.Timer). record x { due = Some due }) self.old }
    {
        self.items[k.get() as usize].set_due(due);
    }

    /// After an expiry now, at most at 10^18: the timer is due again after its interval, or disarmed where it has none. The answer is when.
    pub fn arm_again(&mut self, k: ObjId, now: Tick) -> Option<Tick>
        requires known { k < length self.old }
        requires now { now ≤ 10 ^ 18 }
        ensures value { result ≡ (timer_in self.new k).due }
        ensures timers { self.new ≡ with_timer k (armed_again now) self.old }
    {
        self.items[k.get() as usize].arm_again(now)
    }

    /// The timer expired while its signal was pending. The count stops at 2,147,483,647.
    pub fn overrun_once_more(&mut self, k: ObjId)
        requires { k < length self.old }
        ensures { self.new ≡ with_timer k overrun_once_more self.old }
    {
        self.items[k.get() as usize].overrun_once_more();
    }

    /// The timer's signal was delivered or accepted: the expiries counted since it became pending are its overrun, and are counted anew.
    pub fn tell_overrun(&mut self, k: ObjId)
        requires { k < length self.old }
        ensures { self.new ≡ with_timer k with_overrun_told self.old }
    {
        self.items[k.get() as usize].tell_overrun();
    }
}
