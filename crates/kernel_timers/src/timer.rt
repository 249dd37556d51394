//! One interval timer.
ghost use Rattle.std.specs.Prelude.{◌≡◌, ◌≤◌, ◌*◌, ◌^◌, None, Some, false};
ghost use Rattle.rules_machine.specs.Signals.{with_overrun_told};
ghost use Rattle.rules_machine.specs.Timers.{armed, armed_again, next_expiry, overrun_once_more, ticks_to};

use std::marker::Model;
use words_numbers::Tick;

// DELAYTIMER_MAX
const OVERRUN_LIMIT: u32 = 2_147_483_647;

/// One interval timer.
#[derive(Drop)]
pub struct Timer {
    // of its expiry: the signal, 0 to 31, and that signal's value
    signal: u8,
    value: u64,
    // whether its clock is CLOCK_REALTIME
    is_real: bool,
    due: Option<Tick>,
    // whether that is when its clock reads the time that it was set to
    is_reading: bool,
    // in ticks; 0 where it expires once
    interval: u64,
    // the expiries since its signal became pending
    extra: u32,
    // those that were told with its last signal
    overrun: u32,
}

impl Model for Timer {
    ghost use Rattle.std.specs.Prelude.{◌≤◌, ◌^◌};
    ghost use Rattle.rules_machine.specs.State as machine;

    ghost Value = { machine.Timer };

    ghost view = { λ t. record { signal = t.signal; value = t.value; is_real = t.is_real; due = t.due; is_reading = t.is_reading; interval = t.interval; extra = t.extra; overrun = t.overrun } };

    ghost invariant = { λ t. t.interval ≤ 10 ^ 18 };
}

impl Timer {
    // It is not armed.
    pub(crate) fn new(signal: u8, value: u64, is_real: bool) -> Timer
        ensures { result ≡ record { signal = signal; value = value; is_real = is_real; due = None; is_reading = false; interval = 0; extra = 0; overrun = 0 } }
    {
        Timer {
            signal,
            value,
            is_real,
            due: None,
            is_reading: false,
            interval: 0,
            extra: 0,
            overrun: 0,
        }
    }

    pub(crate) fn arm(&mut self, due: Option<Tick>, is_reading: bool, interval: u64)
        requires { interval ≤ 10 ^ 18 }
        ensures { self.new ≡ armed due is_reading interval self.old }
    {
        self.due = due;
        self.is_reading = is_reading;
        self.interval = interval;
    }

    // When it expires next after an expiry now.
    fn next_expiry(&self, now: Tick) -> Option<Tick>
        requires { now ≤ 10 ^ 18 }
        ensures { result ≡ next_expiry now self.now.interval }
    {
        if self.interval == 0 {
            None
        } else {
            Some(now.plus(self.interval))
        }
    }

    // It is due again after its interval, or disarmed where it has none. The answer is when.
    pub(crate) fn arm_again(&mut self, now: Tick) -> Option<Tick>
        requires { now ≤ 10 ^ 18 }
        ensures value { result ≡ self.new.due }
        ensures timer { self.new ≡ armed_again now self.old }
    {
        self.due = self.next_expiry(now);
        self.is_reading = false;
        self.due
    }

    // When it expires next is moved.
    pub(crate) fn set_due(&mut self, due: Tick)
        ensures { self.new ≡ record self.old { due = Some due } }
    {
        self.due = Some(due);
    }

    pub(crate) fn overrun_once_more(&mut self)
        ensures { self.new ≡ overrun_once_more self.old }
    {
        self.extra = if self.extra < OVERRUN_LIMIT {
            self.extra + 1
        } else {
            OVERRUN_LIMIT
        };
    }

    pub(crate) fn tell_overrun(&mut self)
        ensures { self.new ≡ with_overrun_told self.old }
    {
        self.overrun = self.extra;
        self.extra = 0;
    }

    /// The signal of an expiry, 0 to 31, as it was declared.
    pub fn signal(&self) -> u8
        ensures { result ≡ self.now.signal }
    {
        self.signal
    }

    /// The value of that signal.
    pub fn value(&self) -> u64
        ensures { result ≡ self.now.value }
    {
        self.value
    }

    /// Whether its clock is CLOCK_REALTIME.
    pub fn is_real(&self) -> bool
        ensures { result ≡ self.now.is_real }
    {
        self.is_real
    }

    /// Whether its due tick is when its clock reads the time that it was set to.
    pub fn is_reading(&self) -> bool
        ensures { result ≡ self.now.is_reading }
    {
        self.is_reading
    }

    /// When it expires next; `None` exactly where it is disarmed.
    pub fn due(&self) -> Option<Tick>
        ensures { result ≡ self.now.due }
    {
        self.due
    }

    /// The ticks from one expiry to the next, at most 10^18; 0 where it expires once.
    pub fn interval(&self) -> u64
        ensures { result ≡ self.now.interval }
    {
        self.interval
    }

    /// The ticks from now until it expires; 0 where it is disarmed, or due by now.
    pub fn ticks_left(&self, now: Tick) -> u64
        ensures { result ≡ ticks_to self.now.due now }
    {
        match self.due {
            Some(due) => due.get().saturating_sub(now.get()),
            None => 0,
        }
    }

    /// The overrun of its last signal, at most 2,147,483,647.
    pub fn overrun(&self) -> u32
        ensures { result ≡ self.now.overrun }
    {
        self.overrun
    }
}
