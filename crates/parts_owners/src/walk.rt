//! The walk along the chain of owners.
ghost use Rattle.std.specs.Prelude.{◌≡◌, ◌≢◌, ◌<◌, IfSome, None, Some, length, slice_set, is_none, if◌then◌else◌};
ghost use Rattle.parts_waiters.specs.Places.{place_in, repriced};
ghost use Rattle.parts_owners.specs.Chains.{ArePriorities, Solves, asked_in, links_of, next_in, prio_in};
ghost use Rattle.parts_owners.specs.Moves.{MayWalk, SamePlaces, StandsAt, TellsMoved};

use crate::claims::{MutexState, ThreadClaim, next};
use crate::equations::asked;
use parts_waiters::Waits;
use words_numbers::{Prio, Tid};

/// A thread whose execution priority changed.
#[derive(Clone, Copy)]
pub struct Moved {
    pub thread: Tid,
    pub before: Prio,
    pub after: Prio,
}

/// Gives the thread its priority, and its new place where it waits.
#[tactic(auto, using(crate::proofs::Turns::stays))]
pub(crate) fn give(exec: &mut [Prio], w: &mut Waits, t: Tid, p: Prio)
    requires known { t < length exec.old }
    requires each { length w.old ≡ length exec.old }
    ensures exec { exec.new ≡ slice_set exec.old t p }
    ensures waits { w.new ≡ repriced t p w.old }
{
    exec[t.get() as usize] = p;
    if w.place_of(t).is_some() {
        w.reprio(t, p);
    }
}

/// The change of the thread's priority, where it waits nowhere.
pub(crate) fn told(w: &Waits, t: Tid, before: Prio, after: Prio) -> Option<Moved>
    requires { t < length w.now }
    ensures { result
        ≡ (if is_none (place_in w.now t) then Some (record { thread = t; before = before; after = after }) else None) }
{
    if w.place_of(t).is_some() {
        return None;
    }
    Some(Moved {
        thread: t,
        before,
        after,
    })
}

/// The one thread on whose equation may not hold, and that waits nowhere, gets the other priority that its equation asks for.
#[inline(always)]
pub(crate) fn turn_alone(
    claims: &[ThreadClaim],
    mutexes: &[MutexState],
    exec: &mut [Prio],
    w: &Waits,
    t: Tid,
    p: Prio,
) -> Option<Moved>
    requires walks { MayWalk (links_of claims.now mutexes.now) exec.old t w.now }
    requires nowhere { place_in w.now t ≡ None }
    requires asks { p ≡ asked_in claims.now mutexes.now (prio_in exec.old) t }
    requires other { p ≢ prio_in exec.old t }
    ensures each { length exec.new ≡ length claims.now }
    ensures right { Solves claims.now mutexes.now (prio_in exec.new) }
    ensures fits { ArePriorities exec.new }
    ensures stand { StandsAt (prio_in exec.new) w.now }
    ensures moved { TellsMoved (length claims.now) (prio_in exec.old) (prio_in exec.new) w.now result }
    ensures alone { IfSome result (λ m. m.thread ≡ t) }
{
    // its range is known once it is read
    let _ = p.get();
    let before = exec[t.get() as usize];
    exec[t.get() as usize] = p;
    Some(Moved {
        thread: t,
        before,
        after: p,
    })
}

/// Corrects the priorities from the one thread on whose equation may not hold, from waiter to owner. Mostly that thread waits nowhere.
#[inline(always)]
pub(crate) fn walk(
    claims: &[ThreadClaim],
    mutexes: &[MutexState],
    exec: &mut [Prio],
    w: &mut Waits,
    start: Tid,
) -> Option<Moved>
    requires { MayWalk (links_of claims.now mutexes.now) exec.old start w.old }
    ensures each { length exec.new ≡ length claims.now }
    ensures right { Solves claims.now mutexes.now (prio_in exec.new) }
    ensures fits { ArePriorities exec.new }
    ensures same { SamePlaces w.old w.new }
    ensures stand { StandsAt (prio_in exec.new) w.new }
    ensures moved { TellsMoved (length claims.now) (prio_in exec.old) (prio_in exec.new) w.new result }
    ensures alone { next_in claims.now mutexes.now start ≡ None → IfSome result (λ m. m.thread ≡ start) }
{
    let wanted = asked(claims, mutexes, exec, w, start);
    if wanted == exec[start.get() as usize] {
        return None;
    }
    if w.place_of(start).is_some() {
        return walk_on(claims, mutexes, exec, w, start, wanted);
    }
    turn_alone(claims, mutexes, exec, w, start, wanted)
}

/// The same in a function of its own, where mostly no walk is needed.
#[inline(never)]
pub(crate) fn walk_apart(
    claims: &[ThreadClaim],
    mutexes: &[MutexState],
    exec: &mut [Prio],
    w: &mut Waits,
    start: Tid,
) -> Option<Moved>
    requires { MayWalk (links_of claims.now mutexes.now) exec.old start w.old }
    ensures each { length exec.new ≡ length claims.now }
    ensures right { Solves claims.now mutexes.now (prio_in exec.new) }
    ensures fits { ArePriorities exec.new }
    ensures same { SamePlaces w.old w.new }
    ensures stand { StandsAt (prio_in exec.new) w.new }
    ensures moved { TellsMoved (length claims.now) (prio_in exec.old) (prio_in exec.new) w.new result }
    ensures alone { next_in claims.now mutexes.now start ≡ None → IfSome result (λ m. m.thread ≡ start) }
{
    walk(claims, mutexes, exec, w, start)
}

// The whole walk, from the priority that the first thread is asked for.
#[inline(never)]
fn walk_on(
    claims: &[ThreadClaim],
    mutexes: &[MutexState],
    exec: &mut [Prio],
    w: &mut Waits,
    start: Tid,
    first: Prio,
) -> Option<Moved>
    requires walks { MayWalk (links_of claims.now mutexes.now) exec.old start w.old }
    requires asks { first ≡ asked_in claims.now mutexes.now (prio_in exec.old) start }
    ensures each { length exec.new ≡ length claims.now }
    ensures right { Solves claims.now mutexes.now (prio_in exec.new) }
    ensures fits { ArePriorities exec.new }
    ensures same { SamePlaces w.old w.new }
    ensures stand { StandsAt (prio_in exec.new) w.new }
    ensures moved { TellsMoved (length claims.now) (prio_in exec.old) (prio_in exec.new) w.new result }
    ensures alone { next_in claims.now mutexes.now start ≡ None → IfSome result (λ m. m.thread ≡ start) }
{
    let mut at = start;
    let mut wanted = first;
    for _ in 0..claims.len() {
        // its range is known once it is read
        let _ = wanted.get();
        let before = exec[at.get() as usize];
        if wanted == before {
            return None;
        }
        give(exec, w, at, wanted);
        let Some(owner) = next(claims, mutexes, at) else {
            return told(w, at, before, wanted);
        };
        at = owner;
        wanted = asked(claims, mutexes, exec, w, at);
    }
    None
}
