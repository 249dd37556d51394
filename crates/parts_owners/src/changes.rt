//! Each change, and the walk that corrects the priorities after it.
ghost use Rattle.std.specs.Prelude.{◌≡◌, ◌==◌, ◌<◌, IfSome, None, Some, IsSome, false, length, true};
ghost use Rattle.rules_machine.specs.Lists.{changed_at};
ghost use Rattle.rules_machine.specs.Mutexes.{freed, taken_by};
ghost use Rattle.rules_machine.specs.Priorities.{assigned_in};
ghost use Rattle.rules_machine.specs.Threads.{mutex_in, no_mutex};
ghost use Rattle.parts_waiters.specs.declared.WaitObj.TheVariants as wait_obj;
ghost use Rattle.parts_waiters.specs.Places.{best_of, place_in};
ghost use Rattle.parts_owners.specs.Chains.{SameExec, Settled, counted, awaited_in, closes_cycle_in, assigned_to, freed_if, is_plainly_free, links_of, no_claim, prio_in, taken_if, waiting_for};
ghost use Rattle.parts_owners.specs.Moves.{Changes, IsPlaced, MayPass, Passes, entered, left};

use crate::claims::{
    MutexState, ThreadClaim, assign, become_owner, is_awaited, is_plain, next, set_count, set_free,
    set_wait,
};
use crate::equations::{is_at_assigned, is_plainly_free, lends_less, lends_nothing};
use crate::rise::rise;
use crate::walk::{Moved, turn_alone, walk, walk_apart};
use parts_waiters::{Place, WaitObj, Waits};
use words_numbers::{ObjId, Prio, Tid};

/// The assigned priority of the thread is another.
pub(crate) fn change_base(
    claims: &mut [ThreadClaim],
    mutexes: &[MutexState],
    exec: &mut [Prio],
    w: &mut Waits,
    t: Tid,
    p: Prio,
) -> Option<Moved>
    requires known { t < length claims.old }
    requires settled { Settled (links_of claims.old mutexes.now) exec.old }
    requires placed { IsPlaced (links_of claims.old mutexes.now) w.old }
    ensures claims { claims.new ≡ changed_at no_claim t (assigned_to p) claims.old }
    ensures settled { Settled (links_of claims.new mutexes.now) exec.new }
    ensures changes { Changes (links_of claims.old mutexes.now) (links_of claims.new mutexes.now) w.old w.new result }
    ensures alone { awaited_in claims.old t ≡ None → IfSome result (λ m. m.thread ≡ t) }
{
    assign(claims, t, p);
    walk(claims, mutexes, exec, w, t)
}

/// Whether a priority is above that of the thread, and it waits nowhere.
#[inline(always)]
pub(crate) fn rises(exec: &[Prio], w: &Waits, t: Tid, p: Prio) -> bool
    requires known { t < length exec.now }
    requires places { t < length w.now }
    ensures { result ≡ true → (prio_in exec.now t < p) × (place_in w.now t ≡ None) }
{
    exec[t.get() as usize] < p && w.place_of(t).is_none()
}

/// The assigned priority of the thread, which waits nowhere, is another above its execution priority, which follows: it asks for no less, and
/// nobody lends it more.
#[inline(always)]
pub(crate) fn raise_base(
    claims: &mut [ThreadClaim],
    mutexes: &[MutexState],
    exec: &mut [Prio],
    w: &Waits,
    t: Tid,
    p: Prio,
) -> Option<Moved>
    requires known { t < length claims.old }
    requires settled { Settled (links_of claims.old mutexes.now) exec.old }
    requires placed { IsPlaced (links_of claims.old mutexes.now) w.now }
    requires nowhere { place_in w.now t ≡ None }
    requires above { prio_in exec.old t < p }
    ensures claims { claims.new ≡ changed_at no_claim t (assigned_to p) claims.old }
    ensures settled { Settled (links_of claims.new mutexes.now) exec.new }
    ensures changes { Changes (links_of claims.old mutexes.now) (links_of claims.new mutexes.now) w.now w.now result }
    ensures alone { IfSome result (λ m. m.thread ≡ t) }
{
    assign(claims, t, p);
    turn_alone(claims, mutexes, exec, w, t, p)
}

/// The thread begins to wait for the mutex, at its execution priority. No priority falls.
#[inline(always)]
pub(crate) fn begin_wait(
    claims: &mut [ThreadClaim],
    mutexes: &[MutexState],
    exec: &mut [Prio],
    w: &mut Waits,
    t: Tid,
    k: ObjId,
    owner: Tid,
    serial: u64,
) -> Option<Moved>
    requires known { t < length claims.old }
    requires settled { Settled (links_of claims.old mutexes.now) exec.old }
    requires placed { IsPlaced (links_of claims.old mutexes.now) w.old }
    requires owned { (mutex_in mutexes.now k).owner ≡ Some owner }
    requires nowhere { place_in w.old t ≡ None }
    requires no_cycle { closes_cycle_in claims.old mutexes.now t k ≡ false }
    ensures claims { claims.new ≡ changed_at no_claim t (waiting_for (Some k)) claims.old }
    ensures settled { Settled (links_of claims.new mutexes.now) exec.new }
    ensures changes { Changes (links_of claims.old mutexes.now) (links_of claims.new mutexes.now) (entered t k serial (links_of claims.old mutexes.now) w.old) w.new result }
{
    let at = exec[t.get() as usize];
    set_wait(claims, t, Some(k));
    let place = Place {
        object: WaitObj::Mutex(k),
        priority: at,
        released: ObjId::default(),
        serial,
    };
    w.enter(t, &place);
    rise(claims, mutexes, exec, w, k, owner)
}

/// The thread waits for its mutex no more. Where nobody owns that, no priority changes.
#[inline(always)]
pub(crate) fn end_wait(
    claims: &mut [ThreadClaim],
    mutexes: &[MutexState],
    exec: &mut [Prio],
    w: &mut Waits,
    t: Tid,
) -> Option<Moved>
    requires known { t < length claims.old }
    requires settled { Settled (links_of claims.old mutexes.now) exec.old }
    requires placed { IsPlaced (links_of claims.old mutexes.now) w.old }
    requires waits { IsSome (awaited_in claims.old t) }
    requires stands { IsSome (place_in w.old t) }
    ensures claims { claims.new ≡ changed_at no_claim t (waiting_for None) claims.old }
    ensures settled { Settled (links_of claims.new mutexes.now) exec.new }
    ensures changes { Changes (links_of claims.old mutexes.now) (links_of claims.new mutexes.now) (left t w.old) w.new result }
{
    let owner = next(claims, mutexes, t);
    set_wait(claims, t, None);
    w.leave(t);
    match owner {
        Some(owner) => walk_apart(claims, mutexes, exec, w, owner),
        None => None,
    }
}

/// The thread, which waits for no mutex, owns the mutex, which was free. Mostly that raises nothing.
#[inline(always)]
pub(crate) fn take(
    claims: &[ThreadClaim],
    mutexes: &mut [MutexState],
    exec: &mut [Prio],
    w: &mut Waits,
    k: ObjId,
    t: Tid,
) -> Option<Moved>
    requires known { t < length claims.now }
    requires mutex { k < length mutexes.old }
    requires settled { Settled (links_of claims.now mutexes.old) exec.old }
    requires placed { IsPlaced (links_of claims.now mutexes.old) w.old }
    requires free { (mutex_in mutexes.old k).owner ≡ None }
    requires waits_not { awaited_in claims.now t ≡ None }
    ensures mutexes { mutexes.new ≡ changed_at no_mutex k (taken_by t) mutexes.old }
    ensures settled { Settled (links_of claims.now mutexes.new) exec.new }
    ensures changes { Changes (links_of claims.now mutexes.old) (links_of claims.now mutexes.new) w.old w.new result }
    ensures alone { IfSome result (λ m. m.thread ≡ t) }
{
    become_owner(mutexes, k, t);
    if lends_nothing(claims, mutexes, exec, w, k, t) {
        return None;
    }
    walk_apart(claims, mutexes, exec, w, t)
}

/// The thread, which waits for no mutex, owns the mutex where it is plainly free. The answer is whether it is; no priority changes.
#[inline(always)]
pub(crate) fn take_at_once(
    claims: &[ThreadClaim],
    mutexes: &mut [MutexState],
    exec: &[Prio],
    w: &Waits,
    k: ObjId,
    t: Tid,
) -> bool
    requires known { t < length claims.now }
    requires mutex { k < length mutexes.old }
    requires settled { Settled (links_of claims.now mutexes.old) exec.now }
    requires placed { IsPlaced (links_of claims.now mutexes.old) w.now }
    requires waits_not { awaited_in claims.now t ≡ None }
    ensures value { result ≡ is_plainly_free (mutex_in mutexes.old k) (best_of (wait_obj.Mutex k) w.now) }
    ensures mutexes { mutexes.new ≡ changed_at no_mutex k (taken_if result t) mutexes.old }
    ensures settled { Settled (links_of claims.now mutexes.new) exec.now }
    ensures same { SameExec (links_of claims.now mutexes.old) (links_of claims.now mutexes.new) }
{
    if !is_plainly_free(mutexes, w, k) {
        return false;
    }
    become_owner(mutexes, k, t);
    true
}

/// The mutex, which the thread owned, is free where the thread has its assigned priority, which then stays. The answer is whether it has.
#[inline(always)]
pub(crate) fn release_at_once(
    claims: &[ThreadClaim],
    mutexes: &mut [MutexState],
    exec: &[Prio],
    w: &Waits,
    k: ObjId,
    t: Tid,
) -> bool
    requires mutex { k < length mutexes.old }
    requires settled { Settled (links_of claims.now mutexes.old) exec.now }
    requires placed { IsPlaced (links_of claims.now mutexes.old) w.now }
    requires owned { (mutex_in mutexes.old k).owner ≡ Some t }
    ensures value { result ≡ (prio_in exec.now t == assigned_in claims.now mutexes.old t) }
    ensures mutexes { mutexes.new ≡ changed_at no_mutex k (freed_if result) mutexes.old }
    ensures settled { Settled (links_of claims.now mutexes.new) exec.now }
    ensures same { SameExec (links_of claims.now mutexes.old) (links_of claims.now mutexes.new) }
{
    if !is_at_assigned(claims, exec, t) {
        return false;
    }
    set_free(mutexes, k);
    true
}

/// Whether a mutex lends nothing and has no ceiling, its owner has its assigned priority, and the thread waits for it.
#[inline(always)]
pub(crate) fn may_pass(
    claims: &[ThreadClaim],
    mutexes: &[MutexState],
    exec: &[Prio],
    k: ObjId,
    owner: Tid,
    t: Tid,
) -> bool
    requires known { t < length claims.now }
    requires mutex { k < length mutexes.now }
    requires settled { Settled (links_of claims.now mutexes.now) exec.now }
    requires owned { (mutex_in mutexes.now k).owner ≡ Some owner }
    ensures { result ≡ true → MayPass (links_of claims.now mutexes.now) k owner t }
{
    if !is_at_assigned(claims, exec, owner) {
        return false;
    }
    is_plain(mutexes, k) && is_awaited(claims, k, t)
}

/// The mutex goes from its owner to the thread. No priority changes.
#[inline(always)]
pub(crate) fn pass(
    claims: &mut [ThreadClaim],
    mutexes: &mut [MutexState],
    exec: &[Prio],
    w: &mut Waits,
    k: ObjId,
    owner: Tid,
    t: Tid,
)
    requires known { t < length claims.old }
    requires mutex { k < length mutexes.old }
    requires settled { Settled (links_of claims.old mutexes.old) exec.now }
    requires placed { IsPlaced (links_of claims.old mutexes.old) w.old }
    requires owned { (mutex_in mutexes.old k).owner ≡ Some owner }
    requires may { MayPass (links_of claims.old mutexes.old) k owner t }
    ensures settled { Settled (links_of claims.new mutexes.new) exec.now }
    ensures passes { Passes k t (links_of claims.old mutexes.old) (links_of claims.new mutexes.new) w.old w.new }
{
    become_owner(mutexes, k, t);
    set_wait(claims, t, None);
    w.leave(t);
}

/// The mutex, which the thread owned, is free. A thread stays where it is at its assigned priority, and where the mutex lent it less.
#[inline(always)]
pub(crate) fn release(
    claims: &[ThreadClaim],
    mutexes: &mut [MutexState],
    exec: &mut [Prio],
    w: &mut Waits,
    k: ObjId,
    t: Tid,
) -> Option<Moved>
    requires mutex { k < length mutexes.old }
    requires settled { Settled (links_of claims.now mutexes.old) exec.old }
    requires placed { IsPlaced (links_of claims.now mutexes.old) w.old }
    requires owned { (mutex_in mutexes.old k).owner ≡ Some t }
    ensures mutexes { mutexes.new ≡ changed_at no_mutex k freed mutexes.old }
    ensures settled { Settled (links_of claims.now mutexes.new) exec.new }
    ensures changes { Changes (links_of claims.now mutexes.old) (links_of claims.now mutexes.new) w.old w.new result }
{
    if is_at_assigned(claims, exec, t) {
        set_free(mutexes, k);
        return None;
    }
    release_in_full(claims, mutexes, exec, w, k, t)
}

// The same of a thread that may have been lent something.
#[inline(never)]
fn release_in_full(
    claims: &[ThreadClaim],
    mutexes: &mut [MutexState],
    exec: &mut [Prio],
    w: &mut Waits,
    k: ObjId,
    t: Tid,
) -> Option<Moved>
    requires mutex { k < length mutexes.old }
    requires settled { Settled (links_of claims.now mutexes.old) exec.old }
    requires placed { IsPlaced (links_of claims.now mutexes.old) w.old }
    requires owned { (mutex_in mutexes.old k).owner ≡ Some t }
    ensures mutexes { mutexes.new ≡ changed_at no_mutex k freed mutexes.old }
    ensures settled { Settled (links_of claims.now mutexes.new) exec.new }
    ensures changes { Changes (links_of claims.now mutexes.old) (links_of claims.now mutexes.new) w.old w.new result }
{
    if lends_less(claims, mutexes, exec, w, k, t) {
        set_free(mutexes, k);
        return None;
    }
    set_free(mutexes, k);
    walk(claims, mutexes, exec, w, t)
}

/// The mutex is counted so often; no priority changes.
pub(crate) fn recount(
    claims: &[ThreadClaim],
    mutexes: &mut [MutexState],
    exec: &[Prio],
    k: ObjId,
    n: u16,
)
    requires mutex { k < length mutexes.old }
    requires settled { Settled (links_of claims.now mutexes.old) exec.now }
    ensures mutexes { mutexes.new ≡ changed_at no_mutex k (counted n) mutexes.old }
    ensures settled { Settled (links_of claims.now mutexes.new) exec.now }
    ensures same { SameExec (links_of claims.now mutexes.old) (links_of claims.now mutexes.new) }
{
    set_count(mutexes, k, n);
}
