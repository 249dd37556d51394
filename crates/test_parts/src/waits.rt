//! Three threads that wait for one mutex, a fourth that waits for a semaphore of the same number, two that wait for signals, and two that
//! wait for one condition with two mutexes.
ghost use Rattle.std.specs.Prelude.{◌≡◌, ℕ, IfOk, None, length};
ghost use Rattle.parts_waiters.specs.Places.{place_in};
ghost use Rattle.parts_waiters.specs.declared.WaitObj.TheVariants.{Mutex};

use crate::numbers::{object, prio, thread};
use parts_waiters::{Place, SignalSets, WaitObj, Waits};
use std::alloc::{AllocError, Global};
use words_numbers::{ObjId, Prio, SigSet, Tid};

// The sets of two threads.
#[derive(Drop)]
struct TwoSets {
    sets: [SigSet; 2],
}

impl SignalSets for TwoSets {
    ghost sets = { λ two. two.sets };

    #[tactic(auto, using(crate::proofs::Many::read_set))]
    fn set_of(&self, t: Tid) -> SigSet {
        self.sets[t.get() as usize]
    }
}

fn mutex() -> WaitObj
    ensures { result ≡ Mutex 7 }
{
    WaitObj::Mutex(object(7))
}

// A place among the waiters of an object that is no condition.
fn place(object: WaitObj, priority: Prio, serial: u64) -> Place {
    Place {
        object,
        priority,
        released: ObjId::default(),
        serial,
    }
}

// A place among the waiters of a condition, with that mutex.
fn condition_place(c: ObjId, k: ObjId, priority: Prio, serial: u64) -> Place {
    Place {
        object: WaitObj::Cond(c),
        priority,
        released: k,
        serial,
    }
}

// The number of the waiter for the mutex that is served first.
fn best(waits: &Waits) -> Option<u16> {
    Some(waits.best(mutex())?.get())
}

#[test]
fn waiters_stand_in_the_order_of_service(rt: HostRuntime) {
    let mut waits = Waits::open(rt.alloc(), 4).expect(&rt, "memory");
    let (a, b, c) = (thread(0), thread(1), thread(2));
    waits.enter(a, &place(mutex(), prio(10), 1));
    waits.enter(b, &place(mutex(), prio(20), 2));
    waits.enter(c, &place(mutex(), prio(20), 3));
    let order = [
        waits.best(mutex()),
        waits.next_waiter(b),
        waits.next_waiter(c),
        waits.next_waiter(a),
    ];
    assert_eq!(rt; order, [Some(b), Some(c), Some(a), None]);
}

#[test]
fn a_waiter_rises_and_leaves(rt: HostRuntime) {
    let mut waits = Waits::open(rt.alloc(), 3).expect(&rt, "memory");
    assert_eq!(rt; best(&waits), None);
    waits.enter(thread(0), &place(mutex(), prio(10), 1));
    waits.enter(thread(1), &place(mutex(), prio(20), 2));
    waits.enter(thread(2), &place(WaitObj::Sem(object(7)), prio(30), 4));
    assert_eq!(rt; best(&waits), Some(1));
    waits.reprio(thread(0), prio(20));
    assert_eq!(rt; best(&waits), Some(0));
    waits.leave(thread(0));
    assert_eq!(rt; best(&waits), Some(1));
    let stand = [
        waits.place_of(thread(0)).is_some(),
        waits.place_of(thread(2)).is_some(),
    ];
    assert_eq!(rt; stand, [false, true]);
}

#[test]
fn waiters_for_signals_by_their_sets(rt: HostRuntime) {
    let mut waits = Waits::open(rt.alloc(), 2).expect(&rt, "memory");
    waits.enter(thread(0), &place(WaitObj::SigWait, prio(10), 1));
    waits.enter(thread(1), &place(WaitObj::SigWait, prio(20), 2));
    let sets = TwoSets {
        sets: [SigSet::new(3), SigSet::new(2)],
    };
    let best = [
        waits.best_for_signal(&sets, 1),
        waits.best_for_signal(&sets, 0),
        waits.best_for_signal(&sets, 2),
    ];
    assert_eq!(rt; best, [Some(thread(1)), Some(thread(0)), None]);
}

#[test]
fn a_condition_is_bound_to_the_mutex_of_its_waiters(rt: HostRuntime) {
    let mut waits = Waits::open(rt.alloc(), 3).expect(&rt, "memory");
    let (c, k, other) = (object(1), object(2), object(3));
    waits.enter(thread(0), &condition_place(c, k, prio(10), 1));
    let alike = [
        waits.is_bound_elsewhere(c, k),
        waits.is_bound_elsewhere(c, other),
        waits.is_bound_elsewhere(other, k),
    ];
    assert_eq!(rt; alike, [false, true, false]);
    waits.enter(thread(1), &condition_place(c, other, prio(20), 2));
    let mixed = [
        waits.is_bound_elsewhere(c, k),
        waits.is_bound_elsewhere(c, other),
    ];
    assert_eq!(rt; mixed, [true, true]);
    waits.leave(thread(1));
    assert_eq!(rt; waits.is_bound_elsewhere(c, k), false);
}

// Room for as many threads as there may be, none of which waits.
#[tactic(auto, using(crate::proofs::Many::long_nowhere))]
fn open_for_all(alloc: Global) -> Result<Waits, AllocError>
    ensures long { IfOk result (λ w. length w ≡ 256) }
    ensures nowhere { IfOk result (λ w. (t : ℕ) → place_in w t ≡ None) }
{
    Waits::open(alloc, 256)
}

#[test]
fn the_last_thread_waits_for_the_last_object(rt: HostRuntime) {
    let mut waits = open_for_all(rt.alloc()).expect(&rt, "memory");
    let last = object(255);
    waits.enter(thread(255), &condition_place(last, object(0), prio(10), 1));
    waits.enter(thread(64), &place(WaitObj::Sem(last), prio(10), 2));
    let best = [
        waits.best(WaitObj::Cond(last)),
        waits.best(WaitObj::Sem(last)),
        waits.best(WaitObj::Sem(object(0))),
    ];
    assert_eq!(rt; best, [Some(thread(255)), Some(thread(64)), None]);
}
