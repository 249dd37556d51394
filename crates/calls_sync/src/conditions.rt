//! Conditions.
ghost use Rattle.std.specs.Prelude.{◌≡◌, ◌<◌, ◌^◌, None, Some, length, true};
ghost use Rattle.words_numbers.specs.declared.res.Res.TheVariants as res;
ghost use Rattle.rules_machine.specs.declared.thread.CondEnd.TheVariants as cond_end;
ghost use Rattle.rules_machine.specs.Conditions.{broadcasts, contends, reacquires_or_waits, signals, signals_best, signals_best_times, waits, waits_on_condition};
ghost use Rattle.rules_machine.specs.Mutexes.{releases, returns_from_wait, taken_by};
ghost use Rattle.rules_machine.specs.Priorities.{mutex_awaited_by};
ghost use Rattle.rules_machine.specs.State.{for_condition};
ghost use Rattle.rules_machine.specs.Threads.{is_blocked, mutex_at, thread_at};
ghost use Rattle.rules_machine.specs.Turns.{changes_mutex, returns, ◌▷◌};
ghost use Rattle.rules_machine.specs.Waiters.{waiters};
ghost use Rattle.rules_machine.specs.Waking.{blocks};
ghost use Rattle.kernel_state.specs.RealTimes.{MayWaitUntil};
ghost use Rattle.kernel_state.specs.Does.{Does};
ghost use Rattle.kernel_state.specs.Caller.{caller};
ghost use Rattle.kernel_wakes.specs.Waits.{OwnsNone};
ghost use Rattle.kernel_state.specs.Callers.{CanRise, IsRunning};
ghost use Rattle.calls_sync.specs.Premises.{CanBroadcast, CanContend};

use crate::mutexes::release;
use kernel_state::{Caller, Parts};
use kernel_threads::Wait;
use kernel_wakes::{wake, wake_cancelled};
use parts_io::Sink;
use parts_tracer::Tracer;
use parts_waiters::WaitObj;
use rules_machine::CondEnd;
use words_numbers::{ObjId, Res, Tick, Tid};

// A condition wait is over, with the mutex owned again.
fn return_from_wait<K: Sink>(p: &mut Parts, t: Tid, how: CondEnd, out: &mut Tracer<'_, K>)
    requires { CanRise p.old t }
    ensures { Does K.text K.faults (returns_from_wait how t) p.old p.new out.old out.new }
{
    match how {
        CondEnd::Signalled => wake(p, t, Res::Zero, 0, out),
        CondEnd::Timedout => wake(p, t, Res::Timedout, 0, out),
        CondEnd::Cancelled => wake_cancelled(p, t, out),
    }
}

// The thread takes the mutex of its condition wait, which is free, and returns from the wait.
fn take_again<K: Sink>(p: &mut Parts, t: Tid, k: ObjId, how: CondEnd, out: &mut Tracer<'_, K>)
    requires can { CanRise p.old t }
    requires mutex { k < length p.old.machine.mutexes }
    requires free { (mutex_at p.old.machine k).owner ≡ None }
    requires waits_not { mutex_awaited_by (thread_at p.old.machine t) ≡ None }
    ensures { Does K.text K.faults (λ s. s ▷ changes_mutex k (taken_by t) ▷ returns_from_wait how t) p.old p.new out.old out.new }
{
    p.take_mutex(k, t);
    return_from_wait(p, t, how, out);
}

// The thread owns the mutex of its condition wait again at once, or waits for it.
#[tactic(auto, using(crate::proofs::Contending::can_wait))]
fn reacquire_or_wait<K: Sink>(
    p: &mut Parts,
    t: Tid,
    k: ObjId,
    how: CondEnd,
    out: &mut Tracer<'_, K>,
)
    requires can { CanRise p.old t }
    requires mutex { k < length p.old.machine.mutexes }
    requires blocked { is_blocked (thread_at p.old.machine t).status ≡ true }
    requires waits_not { mutex_awaited_by (thread_at p.old.machine t) ≡ None }
    requires own_none { OwnsNone p.old.machine t }
    requires serial { p.old.machine.next_serial < 2 ^ 63 }
    ensures { Does K.text K.faults (reacquires_or_waits (Some k) t how) p.old p.new out.old out.new }
{
    if p.mutex(k).owner().is_none() {
        take_again(p, t, k, how, out);
    } else {
        p.block_again(t, k, how);
    }
}

/// A thread leaves its condition, and owns its mutex again at once or waits for it.
#[tactic(auto, using(crate::proofs::Contending::released_blocked))]
pub fn contend<K: Sink>(p: &mut Parts, t: Tid, how: CondEnd, out: &mut Tracer<'_, K>)
    requires known { t < length p.old.names }
    requires can { CanContend p.old }
    ensures { Does K.text K.faults (contends t how) p.old p.new out.old out.new }
{
    if let Some(k) = p.released_mutex(t) {
        reacquire_or_wait(p, t, k, how, out);
    }
}

// The caller blocks on the condition, and gives its mutex up.
#[tactic(auto, using(crate::proofs::Resting::blocked_on_condition, crate::proofs::Resting::only_blocked))]
fn block_and_release<K: Sink>(
    p: &mut Parts,
    by: &Caller<'_>,
    c: ObjId,
    k: ObjId,
    due: Option<Tick>,
    out: &mut Tracer<'_, K>,
)
    requires caller { IsRunning p.old by.now.thread }
    requires mutex { k < length p.old.machine.mutexes }
    requires owned { (mutex_at p.old.machine k).owner ≡ Some by.now.thread }
    requires can { CanContend p.old }
    requires modest { MayWaitUntil p.old.machine by.now.call.now due }
    ensures { Does K.text K.faults (λ s. s ▷ blocks (caller by.now) (for_condition c k) due ▷ releases k) p.old p.new out.old out.new }
{
    p.block(by, Wait::Condition(c, k), due);
    release(p, by.thread, k, out);
}

/// `pthread_cond_wait`, and with a time `pthread_cond_timedwait`.
pub(crate) fn cond_wait<K: Sink>(
    p: &mut Parts,
    by: &Caller<'_>,
    c: ObjId,
    k: ObjId,
    due: Option<Tick>,
    out: &mut Tracer<'_, K>,
)
    requires caller { IsRunning p.old by.now.thread }
    requires mutex { k < length p.old.machine.mutexes }
    requires can { CanContend p.old }
    requires modest { MayWaitUntil p.old.machine by.now.call.now due }
    ensures { Does K.text K.faults (waits (caller by.now) c k due) p.old p.new out.old out.new }
{
    if !p.mutex(k).is_owned_by(by.thread) {
        p.returns(by, Res::Perm, 0, out);
    } else if p.mutex(k).count() > 1 || p.is_bound_elsewhere(c, k) {
        p.returns(by, Res::Inval, 0, out);
    } else if p.owned_count(by.thread) > 1 {
        p.returns(by, Res::Deadlk, 0, out);
    } else {
        block_and_release(p, by, c, k, due, out);
    }
}

// The best waiter of the condition, if there is one, contends for its mutex.
fn signal_best<K: Sink>(p: &mut Parts, c: ObjId, out: &mut Tracer<'_, K>)
    requires { CanContend p.old }
    ensures { Does K.text K.faults (signals_best c) p.old p.new out.old out.new }
{
    match p.best_waiter(WaitObj::Cond(c)) {
        None => return,
        Some(w) => contend(p, w, CondEnd::Signalled, out),
    }
}

// The waiters of the condition, each the best of those that are left, contend for their mutexes.
fn signal_all<K: Sink>(p: &mut Parts, c: ObjId, out: &mut Tracer<'_, K>)
    requires { CanBroadcast p.old }
    ensures { Does K.text K.faults (signals_best_times (length (waiters p.old.machine (waits_on_condition c))) c) p.old p.new out.old out.new }
{
    // so it is known that at most 256 wait
    let _ = p.count();
    while let Some(w) = p.best_waiter(WaitObj::Cond(c)) {
        contend(p, w, CondEnd::Signalled, out);
    }
}

/// `pthread_cond_broadcast`.
#[tactic(auto, using(crate::proofs::Returned::returned_fits))]
pub(crate) fn cond_broadcast<K: Sink>(
    p: &mut Parts,
    by: &Caller<'_>,
    c: ObjId,
    out: &mut Tracer<'_, K>,
)
    requires known { by.now.thread < length p.old.names }
    requires can { CanBroadcast p.old }
    ensures { Does K.text K.faults (broadcasts (caller by.now) c) p.old p.new out.old out.new }
{
    p.returns(by, Res::Zero, 0, out);
    signal_all(p, c, out);
}

/// `pthread_cond_signal`.
#[tactic(auto, using(crate::proofs::Returned::returned_fits))]
pub(crate) fn cond_signal<K: Sink>(
    p: &mut Parts,
    by: &Caller<'_>,
    c: ObjId,
    out: &mut Tracer<'_, K>,
)
    requires known { by.now.thread < length p.old.names }
    requires can { CanContend p.old }
    ensures { Does K.text K.faults (signals (caller by.now) c) p.old p.new out.old out.new }
{
    p.returns(by, Res::Zero, 0, out);
    signal_best(p, c, out);
}
