//! Interval timers: setting and reading them.
ghost use Rattle.std.specs.Prelude.{◌≡◌, ◌≤◌, ◌<◌, ◌+◌, ◌*◌, ◌^◌, length};
ghost use Rattle.rules_machine.specs.Threads.{timer_at};
ghost use Rattle.rules_machine.specs.Timers.{first_expiry, reads_overrun, reads_timer, sets_timer, timer_moment};
ghost use Rattle.kernel_threads.specs.RealDues.{real_due_if};
ghost use Rattle.kernel_state.specs.RealTimes.{ComesModestly};
ghost use Rattle.kernel_state.specs.Does.{Does};
ghost use Rattle.kernel_state.specs.Caller.{caller};

use kernel_state::{Caller, Parts};
use parts_io::Sink;
use parts_tracer::Tracer;
use words_numbers::{ObjId, Res, Tick};

/// When a timer that is set for so many ticks from now first expires. `None` exactly where that is 0: it is disarmed.
pub(crate) fn expiry_after(now: Tick, n: u64) -> Option<Tick>
    requires now { now ≤ 10 ^ 18 }
    requires ticks { n ≤ 10 ^ 18 }
    ensures { result ≡ first_expiry n (now + n) }
{
    if n == 0 { None } else { now.after(n) }
}

/// When a timer that is set for a time of its clock, at most 2·10^18, first expires. `None` exactly where that is 0: it is disarmed.
pub(crate) fn expiry_at(p: &Parts, k: ObjId, at: Tick) -> Option<Tick>
    requires timer { k < length p.now.machine.timers }
    requires early { p.now.machine.now ≤ 10 ^ 18 }
    requires limit { at ≤ 2 * 10 ^ 18 }
    ensures value { result ≡ first_expiry at (timer_moment p.now.machine k at) }
    ensures modest { ComesModestly p.now.machine.clock (real_due_if result (timer_at p.now.machine k).is_real) }
{
    if at.get() == 0 {
        None
    } else {
        Some(p.timer_moment(k, at))
    }
}

/// `timer_settime`: the timer is due at that tick, and then again after each interval of so many ticks; with an interval of 0 once. With
/// `None` it is disarmed. The flag says whether that tick is when CLOCK_REALTIME reads the time that the timer is set to.
pub(crate) fn timer_settime<K: Sink>(
    p: &mut Parts,
    by: &Caller<'_>,
    k: ObjId,
    due: Option<Tick>,
    is_reading: bool,
    interval: u64,
    out: &mut Tracer<'_, K>,
)
    requires known { by.now.thread < length p.old.names }
    requires timer { k < length p.old.machine.timers }
    requires interval { interval ≤ 10 ^ 18 }
    requires modest { ComesModestly p.old.machine.clock (real_due_if due is_reading) }
    ensures { Does K.text K.faults (sets_timer (caller by.now) k due is_reading interval) p.old p.new out.old out.new }
{
    p.set_timer(k, due, is_reading, interval);
    p.returns(by, Res::Zero, 0, out);
}

/// `timer_gettime`: the answer is the ticks from now until the timer expires; 0 where it is disarmed, or due by now.
pub(crate) fn timer_gettime<K: Sink>(
    p: &mut Parts,
    by: &Caller<'_>,
    k: ObjId,
    out: &mut Tracer<'_, K>,
)
    requires known { by.now.thread < length p.old.names }
    requires timer { k < length p.old.machine.timers }
    ensures { Does K.text K.faults (reads_timer (caller by.now) k) p.old p.new out.old out.new }
{
    let left = p.timer(k).ticks_left(p.instant());
    p.returns(by, Res::Zero, left, out);
}

/// `timer_getoverrun`: the answer is the overrun of the timer's last signal, at most 2,147,483,647.
pub(crate) fn timer_getoverrun<K: Sink>(
    p: &mut Parts,
    by: &Caller<'_>,
    k: ObjId,
    out: &mut Tracer<'_, K>,
)
    requires known { by.now.thread < length p.old.names }
    requires timer { k < length p.old.machine.timers }
    ensures { Does K.text K.faults (reads_overrun (caller by.now) k) p.old p.new out.old out.new }
{
    let overrun = p.timer(k).overrun();
    p.returns(by, Res::Zero, overrun as u64, out);
}
