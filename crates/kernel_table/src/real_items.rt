//! The threads and timers that hold a reading of CLOCK_REALTIME, by their numbers.
ghost use Rattle.std.specs.Prelude.{◌≡◌, ◌<◌, IfSome, MatchOption, false, is_some, length};
ghost use Rattle.rules_machine.specs.Clock.{waits_on_real};
ghost use Rattle.kernel_threads.specs.RealDues.{real_due_if};
ghost use Rattle.kernel_timers.specs.Timers.{timer_in};
ghost use Rattle.parts_bits.specs.Sets.{Turns, has};
ghost use Rattle.kernel_table.specs.Table as table;
ghost use Rattle.kernel_table.specs.Settings.{timer_real_due};
ghost use Rattle.kernel_table.specs.RealItems.{IsFirstExpiry, IsFirstWait, NoExpiryFrom, NoWaitFrom, expires_at_reading};

use crate::open::tid_of;
use crate::rare_set::RareSet;
use crate::table::Table;
use kernel_timers::{Timer, Timers};
use words_numbers::{ObjId, Tick, Tid};
use words_script::Call;

/// The thread, which could run and so is not in the set, waits from now on, in that call.
#[inline(always)]
pub(crate) fn keep_runner(real_waits: &mut RareSet, t: Tid, due: &Option<Tick>, call: &Call)
    requires thread { t < 256 }
    requires runs { has t real_waits.old ≡ false }
    ensures { Turns t (is_some (real_due_if due.now (waits_on_real call.now))) real_waits.old real_waits.new }
{
    if kernel_threads::real_due(due, call).is_some() {
        real_waits.add(t.get());
    }
}

/// The thread waits no more, or without a limit.
#[inline(always)]
pub(crate) fn drop_wait(real_waits: &mut RareSet, t: Tid)
    requires { t < 256 }
    ensures { Turns t false real_waits.old real_waits.new }
{
    real_waits.remove(t.get());
}

/// When a timer expires next, where that is a time on its clock, which is CLOCK_REALTIME.
pub(crate) fn real_due(timer: &Timer) -> Option<Tick>
    ensures { result ≡ timer_real_due timer.now }
{
    match timer.due() {
        Some(due) if timer.is_reading() => Some(due),
        _ => None,
    }
}

pub(crate) fn obj_of(number: u16) -> ObjId
    requires { number < 256 }
    ensures { result ≡ number }
{
    match ObjId::try_new(number) {
        Some(k) => k,
        None => unreachable!(),
    }
}

/// The timer is set to expire as it is due now.
pub(crate) fn keep_expiry(timers: &Timers, real_expiries: &mut RareSet, k: ObjId)
    requires { k < length timers.now }
    ensures { Turns k (expires_at_reading (timer_in timers.now k)) real_expiries.old real_expiries.new }
{
    real_expiries.turn(k.get(), real_due(timers.get(k)).is_some());
}

/// The timer is disarmed, or expires next after its interval.
pub(crate) fn drop_expiry(real_expiries: &mut RareSet, k: ObjId)
    requires { k < 256 }
    ensures { Turns k false real_expiries.old real_expiries.new }
{
    real_expiries.remove(k.get());
}

impl Table {
    /// The first thread from that number on that waits until the clock reads a time; `None` exactly where there is none.
    pub(crate) fn first_real_wait(&self, from: u16) -> Option<Tid>
        ensures first { MatchOption result (NoWaitFrom self.now from) (λ t. IsFirstWait self.now from t) }
        ensures known { IfSome result (λ t. t < length self.now.threads) }
    {
        let number = self.real_waits.first_from(from)?;
        Some(tid_of(number))
    }

    /// The first timer from that number on that expires when the clock reads a time; `None` exactly where there is none.
    pub(crate) fn first_real_expiry(&self, from: u16) -> Option<ObjId>
        ensures first { MatchOption result (NoExpiryFrom self.now from) (λ k. IsFirstExpiry self.now from k) }
        ensures known { IfSome result (λ k. k < length self.now.timers) }
    {
        let number = self.real_expiries.first_from(from)?;
        Some(obj_of(number))
    }
}
