//! How a lock comes out.
ghost use Rattle.std.specs.Prelude.{◌≡◌, ◌<◌, Some, length};
ghost use Rattle.rules_machine.specs.Mutexes.{lock_answer, locked_again, trylock_answer};
ghost use Rattle.rules_machine.specs.State.{Waiting};
ghost use Rattle.rules_machine.specs.Threads.{waiting_of};
ghost use Rattle.kernel_threads.specs.Plain.{wait_of};
ghost use Rattle.calls_sync.specs.Answers.{answer_of, is_cancelled_wait, owner_answer};

use kernel_state::Parts;
use kernel_threads::Wait;
use kernel_wakes::is_late;
use parts_owners::MutexState;
use rules_machine::CondEnd;
use words_numbers::{ObjId, Res, Tick, Tid};

/// How a lock comes out.
#[derive(Clone, Copy)]
pub(crate) enum LockAnswer {
    Refused(Res),
    /// It is the caller's already, and is counted once more.
    Counts,
    /// It was free.
    Takes,
    MustWait,
}

/// How often an owner may lock a recursive mutex.
const RECURSION_LIMIT: u16 = 65_535;

// A lock by the owner.
fn locked_again(k: &MutexState, otherwise: Res) -> LockAnswer
    ensures { answer_of result ≡ locked_again k.now otherwise }
{
    if !k.is_recursive() {
        LockAnswer::Refused(otherwise)
    } else if k.count() == RECURSION_LIMIT {
        LockAnswer::Refused(Res::Again)
    } else {
        LockAnswer::Counts
    }
}

/// How `pthread_mutex_lock` comes out, and with a time, in ticks, `pthread_mutex_timedlock`.
#[inline(always)]
pub(crate) fn lock_answer(p: &Parts, t: Tid, k: ObjId, due: &Option<Tick>) -> LockAnswer
    requires known { t < length p.now.names }
    requires mutex { k < length p.now.machine.mutexes }
    ensures { answer_of result ≡ lock_answer p.now.machine t k due.now }
{
    let mutex = p.mutex(k);
    if p.is_above_ceiling(t, k) {
        LockAnswer::Refused(Res::Inval)
    } else if mutex.is_owned_by(t) {
        locked_again(mutex, Res::Deadlk)
    } else if mutex.owner().is_none() {
        LockAnswer::Takes
    } else if p.closes_cycle(t, k) {
        LockAnswer::Refused(Res::Deadlk)
    } else if is_late(p, due) {
        LockAnswer::Refused(Res::Timedout)
    } else {
        LockAnswer::MustWait
    }
}

/// How `pthread_mutex_trylock` comes out.
pub(crate) fn trylock_answer(p: &Parts, t: Tid, k: ObjId) -> LockAnswer
    requires known { t < length p.now.names }
    requires mutex { k < length p.now.machine.mutexes }
    ensures { answer_of result ≡ trylock_answer p.now.machine t k }
{
    let mutex = p.mutex(k);
    if p.is_above_ceiling(t, k) {
        LockAnswer::Refused(Res::Inval)
    } else if mutex.is_owned_by(t) {
        locked_again(mutex, Res::Busy)
    } else if mutex.owner().is_none() {
        LockAnswer::Takes
    } else {
        LockAnswer::Refused(Res::Busy)
    }
}

// The answer of a wait that ends as its mutex is handed over.
fn owner_answer(wait: &Wait) -> Res
    ensures { result ≡ owner_answer (wait_of wait.now) }
{
    match wait {
        Wait::MutexAgain(_, CondEnd::Timedout) => Res::Timedout,
        _ => Res::Zero,
    }
}

/// The answer of a waiter that is handed its mutex: a timed condition wait whose time came tells so.
#[tactic(auto, using(crate::proofs::Released::none_waits, crate::proofs::Released::some_waits))]
pub(crate) fn answer_as_owner(p: &Parts, w: Tid) -> Res
    requires { w < length p.now.names }
    ensures { (v : Waiting) → waiting_of p.now.machine w ≡ Some v → result ≡ owner_answer v.wait }
{
    match p.thread(w).wait() {
        None => Res::Zero,
        Some(wait) => owner_answer(&wait),
    }
}

// Whether the request that ended its condition wait acts as its mutex is handed over.
fn is_cancelled_wait(wait: &Wait) -> bool
    ensures { result ≡ is_cancelled_wait (wait_of wait.now) }
{
    match wait {
        Wait::MutexAgain(_, CondEnd::Cancelled) => true,
        _ => false,
    }
}

/// Whether a waiter's condition wait was cancelled, so that the request acts as it is handed its mutex.
#[tactic(auto, using(crate::proofs::Released::none_cancelled, crate::proofs::Released::some_cancelled))]
pub(crate) fn is_cancelled_waiter(p: &Parts, w: Tid) -> bool
    requires { w < length p.now.names }
    ensures { (v : Waiting) → waiting_of p.now.machine w ≡ Some v → result ≡ is_cancelled_wait v.wait }
{
    match p.thread(w).wait() {
        None => false,
        Some(wait) => is_cancelled_wait(&wait),
    }
}
