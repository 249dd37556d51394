//! What the equations of the execution priorities ask for.
ghost use Rattle.std.specs.Prelude.{◌≡◌, ◌==◌, ◌<◌, length, map, max, if◌then◌else◌, slice_index_or, true};
ghost use Rattle.rules_machine.specs.Lists.{greatest, is};
ghost use Rattle.rules_machine.specs.Priorities.{is_inherit_mutex_of, owner_ceiling};
ghost use Rattle.rules_machine.specs.Threads.{mutex_in};
ghost use Rattle.parts_waiters.specs.declared.WaitObj.TheVariants as wait_obj;
ghost use Rattle.parts_waiters.specs.Places.{best_of};
ghost use Rattle.parts_owners.specs.Chains.{asked_in, is_plainly_free, no_claim, prio_in, through_in, waiters_in};
ghost use Rattle.parts_owners.specs.Moves.{StandsAt, WaitersStand};
ghost use Rattle.parts_owners.specs.Rises.{RisesThrough};

use crate::claims::{MutexState, ThreadClaim};
use parts_waiters::{WaitObj, Waits};
use words_numbers::{ObjId, Prio, Tid};
use words_script::Protocol;

// The greater of a priority and a number.
fn larger(p: Prio, n: u8) -> Prio
    ensures { result ≡ max p n }
{
    let Some(q) = Prio::try_new(n) else {
        return p;
    };
    if p < q { q } else { p }
}

// The greater of a priority and that of a thread, if it waits for the mutex.
fn raised_by_waiter(c: &ThreadClaim, k: usize, lent: Prio, best: Prio) -> Prio
    ensures { result ≡ (if is c.now.awaited k then max best lent else best) }
{
    if c.awaits(k) {
        larger(best, lent.get())
    } else {
        best
    }
}

// The greatest of a priority and those of the threads that wait for a mutex, found one by one.
#[inline(never)]
#[tactic(auto, using(crate::proofs::Asked::lent_more))]
fn raised_by_all(claims: &[ThreadClaim], exec: &[Prio], k: usize, start: Prio) -> Prio
    requires { length exec.now ≡ length claims.now }
    ensures { result ≡ max start (greatest (map (prio_in exec.now) (waiters_in claims.now k))) }
{
    let mut best = start;
    for (u, c) in claims.iter().enumerate() {
        best = raised_by_waiter(c, k, exec[u], best);
    }
    best
}

// The greatest of a priority and those of the threads that wait for a mutex: none waits with a greater one than the first served.
fn raised_by_waiters(
    claims: &[ThreadClaim],
    exec: &[Prio],
    w: &Waits,
    k: usize,
    start: Prio,
) -> Prio
    requires each { length exec.now ≡ length claims.now }
    requires counted { length w.now ≡ length claims.now }
    requires stand { StandsAt (prio_in exec.now) w.now }
    requires waiters { WaitersStand claims.now w.now }
    ensures { result ≡ max start (greatest (map (prio_in exec.now) (waiters_in claims.now k))) }
{
    // There are at most 256 mutexes, which no clause says here: one past them is found one by one.
    if k >= 256 {
        return raised_by_all(claims, exec, k, start);
    }
    let Some(mutex) = ObjId::try_new(k as u16) else {
        // not reached: each number below 256 is one
        return start;
    };
    match w.best(WaitObj::Mutex(mutex)) {
        Some(first) => larger(start, exec[first.get() as usize].get()),
        None => start,
    }
}

// The greatest of a priority and what the thread gets through one mutex: its ceiling, or the priorities of those that wait for it.
fn raised_through(
    claims: &[ThreadClaim],
    exec: &[Prio],
    w: &Waits,
    m: &MutexState,
    k: usize,
    t: Tid,
    best: Prio,
) -> Prio
    requires each { length exec.now ≡ length claims.now }
    requires counted { length w.now ≡ length claims.now }
    requires stand { StandsAt (prio_in exec.now) w.now }
    requires waiters { WaitersStand claims.now w.now }
    ensures { result
        ≡ max
        (max best (owner_ceiling t m.now))
        (if is_inherit_mutex_of t m.now then greatest (map (prio_in exec.now) (waiters_in claims.now k)) else 0) }
{
    if !m.is_owned_by(t) {
        return best;
    }
    match m.protocol() {
        Protocol::Plain => best,
        Protocol::Inherit => raised_by_waiters(claims, exec, w, k, best),
        Protocol::Protect(ceiling) => larger(best, ceiling.get()),
    }
}

/// Whether a mutex is free, and raises nobody who takes it, whatever the priorities are.
#[inline(always)]
pub(crate) fn is_plainly_free(mutexes: &[MutexState], w: &Waits, k: ObjId) -> bool
    requires { k < length mutexes.now }
    ensures { result ≡ is_plainly_free (mutex_in mutexes.now k) (best_of (wait_obj.Mutex k) w.now) }
{
    let mutex = &mutexes[k.get() as usize];
    if mutex.owner().is_some() {
        return false;
    }
    match mutex.protocol() {
        Protocol::Plain => true,
        Protocol::Inherit => w.best(WaitObj::Mutex(k)).is_none(),
        Protocol::Protect(_) => false,
    }
}

/// Whether a mutex gives its owner no greater priority.
#[inline(always)]
pub(crate) fn lends_nothing(
    claims: &[ThreadClaim],
    mutexes: &[MutexState],
    exec: &[Prio],
    w: &Waits,
    k: ObjId,
    t: Tid,
) -> bool
    requires known { t < length claims.now }
    requires mutex { k < length mutexes.now }
    requires each { length exec.now ≡ length claims.now }
    requires counted { length w.now ≡ length claims.now }
    requires stand { StandsAt (prio_in exec.now) w.now }
    requires waiters { WaitersStand claims.now w.now }
    ensures { result ≡ true → prio_in exec.now t ≡ max (prio_in exec.now t) (through_in claims.now (prio_in exec.now) t k (mutex_in mutexes.now k)) }
{
    let k = k.get() as usize;
    let before = exec[t.get() as usize];
    raised_through(claims, exec, w, &mutexes[k], k, t, before) == before
}

/// Whether a mutex gives its owner less than it has.
#[inline(always)]
pub(crate) fn lends_less(
    claims: &[ThreadClaim],
    mutexes: &[MutexState],
    exec: &[Prio],
    w: &Waits,
    k: ObjId,
    t: Tid,
) -> bool
    requires known { t < length claims.now }
    requires mutex { k < length mutexes.now }
    requires each { length exec.now ≡ length claims.now }
    requires counted { length w.now ≡ length claims.now }
    requires stand { StandsAt (prio_in exec.now) w.now }
    requires waiters { WaitersStand claims.now w.now }
    ensures { result ≡ true → through_in claims.now (prio_in exec.now) t k (mutex_in mutexes.now k) < prio_in exec.now t }
{
    let k = k.get() as usize;
    let lent = raised_through(claims, exec, w, &mutexes[k], k, t, Prio::default());
    lent < exec[t.get() as usize]
}

/// Whether the thread has its assigned priority.
#[inline(always)]
pub(crate) fn is_at_assigned(claims: &[ThreadClaim], exec: &[Prio], t: Tid) -> bool
    requires known { t < length claims.now }
    requires each { length exec.now ≡ length claims.now }
    ensures { result ≡ (prio_in exec.now t == (slice_index_or claims.now t no_claim).assigned) }
{
    exec[t.get() as usize] == claims[t.get() as usize].assigned()
}

/// What the equation of a thread asks for.
#[tactic(auto, using(crate::proofs::Asked::asked_more))]
pub(crate) fn asked(
    claims: &[ThreadClaim],
    mutexes: &[MutexState],
    exec: &[Prio],
    w: &Waits,
    t: Tid,
) -> Prio
    requires known { t < length claims.now }
    requires each { length exec.now ≡ length claims.now }
    requires counted { length w.now ≡ length claims.now }
    requires stand { StandsAt (prio_in exec.now) w.now }
    requires waiters { WaitersStand claims.now w.now }
    ensures { result ≡ asked_in claims.now mutexes.now (prio_in exec.now) t }
{
    let mut best = claims[t.get() as usize].assigned();
    for (k, m) in mutexes.iter().enumerate() {
        best = raised_through(claims, exec, w, m, k, t, best);
    }
    best
}

/// The same of an owner that is asked for what it has or for what it gets through this one mutex.
#[inline(always)]
pub(crate) fn asked_through(
    claims: &[ThreadClaim],
    mutexes: &[MutexState],
    exec: &[Prio],
    w: &Waits,
    k: ObjId,
    t: Tid,
) -> Prio
    requires known { t < length claims.now }
    requires mutex { k < length mutexes.now }
    requires each { length exec.now ≡ length claims.now }
    requires counted { length w.now ≡ length claims.now }
    requires stand { StandsAt (prio_in exec.now) w.now }
    requires waiters { WaitersStand claims.now w.now }
    requires rises { RisesThrough claims.now mutexes.now (prio_in exec.now) k t }
    ensures { result ≡ asked_in claims.now mutexes.now (prio_in exec.now) t }
{
    let k = k.get() as usize;
    let has = exec[t.get() as usize];
    raised_through(claims, exec, w, &mutexes[k], k, t, has)
}
