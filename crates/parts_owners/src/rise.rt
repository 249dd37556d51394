//! The walk along the chain of owners where priorities only rise: it looks at no other mutexes than those of the chain.
ghost use Rattle.std.specs.Prelude.{◌≡◌, ◌<◌, IfSome, Some, length, option_map};
ghost use Rattle.parts_owners.specs.Chains.{ArePriorities, Solves, awaited_in, links_of, next_in, prio_in};
ghost use Rattle.parts_owners.specs.Moves.{MayWalk, SamePlaces, StandsAt, TellsMoved};
ghost use Rattle.parts_owners.specs.Rises.{RisesThrough};

use crate::claims::{MutexState, ThreadClaim};
use crate::equations::asked_through;
use crate::walk::{Moved, give, told};
use parts_waiters::Waits;
use words_numbers::{ObjId, Prio, Tid};

/// A mutex with its owner.
#[derive(Clone, Copy)]
pub struct Owned {
    mutex: ObjId,
    owner: Tid,
}

// The mutex that the thread waits for, with its owner; `None` exactly where there is no such owner.
fn next_owned(claims: &[ThreadClaim], mutexes: &[MutexState], t: Tid) -> Option<Owned>
    requires { t < length claims.now }
    ensures next { option_map (λ o. o.owner) result ≡ next_in claims.now mutexes.now t }
    ensures awaited { IfSome result (λ o. awaited_in claims.now t ≡ Some o.mutex) }
    ensures owned { IfSome result (λ o. o.mutex < length mutexes.now) }
{
    let mutex = claims[t.get() as usize].awaited()?;
    let k = mutex.get() as usize;
    if k < mutexes.len() {
        return match mutexes[k].owner() {
            Some(owner) => Some(Owned { mutex, owner }),
            None => None,
        };
    }
    None
}

/// Corrects the priorities from the owner of a mutex, where none falls: each owner is asked for what it has, or for what it gets
/// through the one mutex. Mostly the first gets no more.
#[inline(always)]
pub(crate) fn rise(
    claims: &[ThreadClaim],
    mutexes: &[MutexState],
    exec: &mut [Prio],
    w: &mut Waits,
    k: ObjId,
    start: Tid,
) -> Option<Moved>
    requires walks { MayWalk (links_of claims.now mutexes.now) exec.old start w.old }
    requires mutex { k < length mutexes.now }
    requires rises { RisesThrough claims.now mutexes.now (prio_in exec.old) k start }
    ensures each { length exec.new ≡ length claims.now }
    ensures right { Solves claims.now mutexes.now (prio_in exec.new) }
    ensures fits { ArePriorities exec.new }
    ensures same { SamePlaces w.old w.new }
    ensures stand { StandsAt (prio_in exec.new) w.new }
    ensures moved { TellsMoved (length claims.now) (prio_in exec.old) (prio_in exec.new) w.new result }
{
    let wanted = asked_through(claims, mutexes, exec, w, k, start);
    if wanted == exec[start.get() as usize] {
        return None;
    }
    rise_in_full(claims, mutexes, exec, w, k, start)
}

// The same, where the first may get more.
#[inline(never)]
fn rise_in_full(
    claims: &[ThreadClaim],
    mutexes: &[MutexState],
    exec: &mut [Prio],
    w: &mut Waits,
    k: ObjId,
    start: Tid,
) -> Option<Moved>
    requires walks { MayWalk (links_of claims.now mutexes.now) exec.old start w.old }
    requires mutex { k < length mutexes.now }
    requires rises { RisesThrough claims.now mutexes.now (prio_in exec.old) k start }
    ensures each { length exec.new ≡ length claims.now }
    ensures right { Solves claims.now mutexes.now (prio_in exec.new) }
    ensures fits { ArePriorities exec.new }
    ensures same { SamePlaces w.old w.new }
    ensures stand { StandsAt (prio_in exec.new) w.new }
    ensures moved { TellsMoved (length claims.now) (prio_in exec.old) (prio_in exec.new) w.new result }
{
    let mut at = start;
    let mut through = k;
    for _ in 0..claims.len() {
        let wanted = asked_through(claims, mutexes, exec, w, through, at);
        // its range is known once it is read
        let _ = wanted.get();
        let before = exec[at.get() as usize];
        if wanted == before {
            return None;
        }
        give(exec, w, at, wanted);
        let Some(next) = next_owned(claims, mutexes, at) else {
            return told(w, at, before, wanted);
        };
        at = next.owner;
        through = next.mutex;
    }
    None
}
