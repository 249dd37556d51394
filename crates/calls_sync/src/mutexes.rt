//! Locking and unlocking.
ghost use Rattle.std.specs.Prelude.{◌≡◌, ◌<◌, ◌==◌, None, Some, false, length, option_map};
ghost use Rattle.words_numbers.specs.declared.res.Res.TheVariants as res;
ghost use Rattle.rules_machine.specs.Mutexes.{counted_up, counted_down, locks, carries_out_lock, recursion_limit, releases, taken_by, tries_lock, unlocks, waits_for_mutex};
ghost use Rattle.rules_machine.specs.Threads.{mutex_at};
ghost use Rattle.rules_machine.specs.Turns.{changes_mutex, returns, ◌▷◌};
ghost use Rattle.rules_machine.specs.Waiters.{Waiter, best_waiter};
ghost use Rattle.kernel_state.specs.RealTimes.{MayWaitUntil};
ghost use Rattle.kernel_state.specs.Does.{Does};
ghost use Rattle.kernel_state.specs.Caller.{caller};
ghost use Rattle.calls_sync.specs.Answers.{CanAct, answer_of};
ghost use Rattle.kernel_state.specs.Callers.{CanBlock, CanWake, IsRunning};
ghost use Rattle.calls_sync.specs.Premises.{CanRelease};

use crate::answers::{
    LockAnswer, answer_as_owner, is_cancelled_waiter, lock_answer, trylock_answer,
};
use kernel_state::{Caller, Parts};
use kernel_threads::Wait;
use kernel_wakes::{wake_cancelled_owner, wake_owner};
use parts_io::Sink;
use parts_tracer::Tracer;
use parts_waiters::WaitObj;
use words_numbers::{ObjId, Res, Tick, Tid};

// The caller's mutex is counted once more.
fn count_up<K: Sink>(p: &mut Parts, by: &Caller<'_>, k: ObjId, out: &mut Tracer<'_, K>)
    requires known { by.now.thread < length p.old.names }
    requires mutex { k < length p.old.machine.mutexes }
    requires below { ((mutex_at p.old.machine k).count == recursion_limit) ≡ false }
    ensures { Does K.text K.faults (λ s. s ▷ changes_mutex k counted_up ▷ returns (caller by.now) res.Zero 0) p.old p.new out.old out.new }
{
    let count = p.mutex(k).count();
    p.set_count(k, count + 1);
    p.returns(by, Res::Zero, 0, out);
}

// The caller takes the mutex, which was free.
#[inline(always)]
#[tactic(auto, using(crate::proofs::Acts::awaits_none))]
fn take<K: Sink>(p: &mut Parts, by: &Caller<'_>, k: ObjId, out: &mut Tracer<'_, K>)
    requires caller { IsRunning p.old by.now.thread }
    requires mutex { k < length p.old.machine.mutexes }
    requires free { (mutex_at p.old.machine k).owner ≡ None }
    ensures { Does K.text K.faults (λ s. s ▷ changes_mutex k (taken_by by.now.thread) ▷ returns (caller by.now) res.Zero 0) p.old p.new out.old out.new }
{
    p.take_mutex(k, by.thread);
    p.returns(by, Res::Zero, 0, out);
}

// What an answer does.
#[inline(always)]
fn act<K: Sink>(
    p: &mut Parts,
    by: &Caller<'_>,
    k: ObjId,
    due: Option<Tick>,
    answer: LockAnswer,
    out: &mut Tracer<'_, K>,
)
    requires caller { CanBlock p.old by.now.thread }
    requires mutex { k < length p.old.machine.mutexes }
    requires can { CanAct p.old.machine by.now.thread k (answer_of answer) }
    requires modest { MayWaitUntil p.old.machine by.now.call.now due }
    ensures { Does K.text K.faults (carries_out_lock (answer_of answer) (caller by.now) k due) p.old p.new out.old out.new }
{
    match answer {
        LockAnswer::Refused(refusal) => p.returns(by, refusal, 0, out),
        LockAnswer::Counts => count_up(p, by, k, out),
        LockAnswer::Takes => take(p, by, k, out),
        LockAnswer::MustWait => p.block(by, Wait::Mutex(k), due),
    }
}

/// `pthread_mutex_lock`, and with a time `pthread_mutex_timedlock`. Mostly the mutex is free, and to take it raises nobody.
#[inline(always)]
#[tactic(auto, using(crate::proofs::Acts::awaits_none))]
pub(crate) fn mutex_lock<K: Sink>(
    p: &mut Parts,
    by: &Caller<'_>,
    k: ObjId,
    due: Option<Tick>,
    out: &mut Tracer<'_, K>,
)
    requires can { CanBlock p.old by.now.thread }
    requires mutex { k < length p.old.machine.mutexes }
    requires modest { MayWaitUntil p.old.machine by.now.call.now due }
    ensures { Does K.text K.faults (locks (caller by.now) k due) p.old p.new out.old out.new }
{
    if p.take_at_once(k, by.thread) {
        p.returns(by, Res::Zero, 0, out);
    } else {
        lock_any(p, by, k, due, out);
    }
}

// The lock of any mutex, as it comes out.
#[inline(never)]
#[tactic(auto, using(crate::proofs::Acts::lock_acts))]
fn lock_any<K: Sink>(
    p: &mut Parts,
    by: &Caller<'_>,
    k: ObjId,
    due: Option<Tick>,
    out: &mut Tracer<'_, K>,
)
    requires can { CanBlock p.old by.now.thread }
    requires mutex { k < length p.old.machine.mutexes }
    requires modest { MayWaitUntil p.old.machine by.now.call.now due }
    ensures { Does K.text K.faults (locks (caller by.now) k due) p.old p.new out.old out.new }
{
    let answer = lock_answer(p, by.thread, k, &due);
    act(p, by, k, due, answer, out);
}

/// `pthread_mutex_trylock`. It never waits.
#[tactic(auto, using(crate::proofs::Acts::trylock_can))]
pub(crate) fn mutex_trylock<K: Sink>(
    p: &mut Parts,
    by: &Caller<'_>,
    k: ObjId,
    out: &mut Tracer<'_, K>,
)
    requires can { CanBlock p.old by.now.thread }
    requires mutex { k < length p.old.machine.mutexes }
    ensures { Does K.text K.faults (tries_lock (caller by.now) k) p.old p.new out.old out.new }
{
    let answer = trylock_answer(p, by.thread, k);
    act(p, by, k, None, answer, out);
}

// The owner's mutex goes to its best waiter.
#[inline(never)]
#[tactic(auto, using(crate::proofs::Resting::best_rests))]
fn hand_over<K: Sink>(p: &mut Parts, t: Tid, k: ObjId, w: Tid, out: &mut Tracer<'_, K>)
    requires known { w < length p.old.names }
    requires can { CanRelease p.old t k }
    requires best { Some w ≡ option_map (λ (v : Waiter). v.thread) (best_waiter p.old.machine (waits_for_mutex k)) }
    ensures { Does K.text K.faults (releases k) p.old p.new out.old out.new }
{
    if is_cancelled_waiter(p, w) {
        wake_cancelled_owner(p, k, t, w, out);
    } else {
        let answer = answer_as_owner(p, w);
        wake_owner(p, k, t, w, answer, out);
    }
}

/// The owner's mutex goes to its best waiter, or is free.
pub(crate) fn release<K: Sink>(p: &mut Parts, t: Tid, k: ObjId, out: &mut Tracer<'_, K>)
    requires { CanRelease p.old t k }
    ensures { Does K.text K.faults (releases k) p.old p.new out.old out.new }
{
    match p.best_waiter(WaitObj::Mutex(k)) {
        None => p.release_mutex(k, t),
        Some(w) => hand_over(p, t, k, w, out),
    }
}

// The caller's mutex is counted once less.
fn count_down<K: Sink>(p: &mut Parts, by: &Caller<'_>, k: ObjId, out: &mut Tracer<'_, K>)
    requires known { by.now.thread < length p.old.names }
    requires mutex { k < length p.old.machine.mutexes }
    requires counted { 1 < (mutex_at p.old.machine k).count }
    ensures { Does K.text K.faults (λ s. s ▷ returns (caller by.now) res.Zero 0 ▷ changes_mutex k counted_down) p.old p.new out.old out.new }
{
    p.returns(by, Res::Zero, 0, out);
    let count = p.mutex(k).count();
    p.set_count(k, count - 1);
}

// The caller, which has locked the mutex once, gives it up.
#[tactic(auto, using(crate::proofs::Returned::returned_waiters))]
fn give_up<K: Sink>(p: &mut Parts, by: &Caller<'_>, k: ObjId, out: &mut Tracer<'_, K>)
    requires caller { IsRunning p.old by.now.thread }
    requires mutex { k < length p.old.machine.mutexes }
    requires owned { (mutex_at p.old.machine k).owner ≡ Some by.now.thread }
    requires can { CanWake p.old }
    ensures { Does K.text K.faults (λ s. s ▷ returns (caller by.now) res.Zero 0 ▷ releases k) p.old p.new out.old out.new }
{
    p.returns(by, Res::Zero, 0, out);
    release(p, by.thread, k, out);
}

/// `pthread_mutex_unlock`.
pub(crate) fn mutex_unlock<K: Sink>(
    p: &mut Parts,
    by: &Caller<'_>,
    k: ObjId,
    out: &mut Tracer<'_, K>,
)
    requires caller { IsRunning p.old by.now.thread }
    requires mutex { k < length p.old.machine.mutexes }
    requires can { CanWake p.old }
    ensures { Does K.text K.faults (unlocks (caller by.now) k) p.old p.new out.old out.new }
{
    if !p.mutex(k).is_owned_by(by.thread) {
        p.returns(by, Res::Perm, 0, out);
    } else if p.mutex(k).count() > 1 {
        count_down(p, by, k, out);
    } else {
        give_up(p, by, k, out);
    }
}
