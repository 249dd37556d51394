//! Who waits for which object, with the priority and the serial that the order of service goes by.
//!
//! Proved: the place of each waiting thread; `best`, `next_waiter` and `best_for_signal` are the first by priority, then age, and
//! with a machine's waits its best waiter and its acceptor of a signal for the process; `is_bound_elsewhere` is so exactly where a
//! waiter of the condition waits with another mutex.
//!
//! Contracts see the place of each thread; the order of those that wait for one object follows from the places, and is that of
//! `rules_machine`: the greatest priority first, and among equals the one that has waited longest. The waiters of each object stand
//! on a linked list in that order, so that the first of them, and the one after each, is read and not searched. No call after `open`
//! takes memory.
#![tactic(auto)]

ghost use Rattle.std.specs.Prelude.{◌≡◌, ◌<◌, ◌≤◌, ℕ, None, Some, IfOk, IsSome, false, length, replicate, slice_set, option_map, true};
ghost use Rattle.parts_waiters.specs.Places.{place_in, repriced, best_of, best_for, next_of};
ghost use Rattle.parts_waiters.specs.Bound.{WaitsElsewhere};
ghost use Rattle.parts_waiters.specs.Held.{id_of, number_of};
ghost use Rattle.parts_waiters.specs.Ties.{BestsAreAcceptors, BestsAreWaiters};

mod bound;
mod order;
mod signal_sets;

use bound::{fits, has_one_elsewhere, is_first_elsewhere};
use order::{Candidate, first_awaiting, stand};
use parts_filled::filled;
use parts_links::Links;
pub use signal_sets::SignalSets;
use std::alloc::{AllocError, Global};
use std::marker::Model;
use words_numbers::{ObjId, Prio, Tid};

/// What a thread waits for in an order.
#[derive(Clone, Copy)]
pub enum WaitObj {
    Mutex(ObjId),
    Cond(ObjId),
    Sem(ObjId),
    /// Room in a queue.
    Sender(ObjId),
    /// A message of a queue.
    Receiver(ObjId),
    /// A signal.
    SigWait,
}

/// Where a thread waits: for what, at which priority, since which serial; and with which mutex, where it waits for a condition.
#[derive(Clone, Copy)]
pub struct Place {
    pub object: WaitObj,
    pub priority: Prio,
    /// The mutex of a condition's wait, and 0 of any other.
    pub released: ObjId,
    pub serial: u64,
}

/// The places of the threads that wait.
#[derive(Drop)]
pub struct Waits {
    places: Vec<Option<Place>>,
    // a list for each object, in the order of service
    links: Links,
    // true only where all that wait for one condition wait with one mutex; the kernel lets no others wait, so it stays true
    alike: bool,
}

impl Model for Waits {
    ghost use Rattle.std.specs.Prelude.{List, Option};
    ghost use Rattle.parts_waiters.specs.declared.Place.{Place};
    ghost use Rattle.parts_waiters.specs.View.{IsInside};

    ghost Value = { List (Option Place) };

    ghost view = { λ w. w.places.items };

    ghost invariant = { IsInside };
}

impl WaitObj {
    // The number of the object's list.
    fn number(self) -> u32
        ensures number { result ≡ number_of self }
        ensures small { result < 1281 }
        ensures id { id_of self < 256 }
    {
        match self {
            WaitObj::Mutex(k) => k.get() as u32,
            WaitObj::Cond(k) => 256 + k.get() as u32,
            WaitObj::Sem(k) => 512 + k.get() as u32,
            WaitObj::Sender(k) => 768 + k.get() as u32,
            WaitObj::Receiver(k) => 1024 + k.get() as u32,
            WaitObj::SigWait => 1280,
        }
    }
}

// Places for so many threads.
fn nowhere(alloc: Global, threads: u16) -> Result<Vec<Option<Place>>, AllocError>
    ensures { IfOk result (λ places. places.items ≡ replicate threads None) }
{
    filled(alloc, usize::from(threads), None)
}

impl Waits {
    /// Places for so many threads, none of which waits.
    pub fn open(alloc: Global, threads: u16) -> Result<Waits, AllocError>
        requires { threads ≤ 256 }
        ensures { IfOk result (λ w. w ≡ replicate threads None) }
    {
        let places = nowhere(alloc, threads)?;
        let links = Links::open(alloc, 256, 1281)?;
        Ok(Waits {
            places,
            links,
            alike: true,
        })
    }

    /// The thread begins to wait, at that place.
    #[inline(always)]
    pub fn enter(&mut self, t: Tid, place: &Place)
        requires known { t < length self.old }
        requires nowhere { place_in self.old t ≡ None }
        ensures { self.new ≡ slice_set self.old t (Some place.now) }
    {
        let list = place.object.number();
        let waiter = Candidate::of(t.get() as u32, place);
        let differs = self.alike && !fits(&self.links, &self.places, list, place);
        stand(&mut self.links, &self.places, list, waiter);
        // field by field: a copy would read at once what was just written in pieces, and wait for these
        let Place {
            object,
            priority,
            released,
            serial,
        } = *place;
        self.places[t.get() as usize] = Some(Place {
            object,
            priority,
            released,
            serial,
        });
        if differs {
            self.alike = false;
        }
    }

    /// The thread waits no more.
    pub fn leave(&mut self, t: Tid)
        requires { IsSome (place_in self.old t) }
        ensures { self.new ≡ slice_set self.old t None }
    {
        self.links.unlink(t.get() as u32);
        self.places[t.get() as usize] = None;
    }

    /// The priority at which the thread waits is another; it keeps its serial.
    #[inline(never)]
    pub fn reprio(&mut self, t: Tid, p: Prio)
        requires { IsSome (place_in self.old t) }
        ensures { self.new ≡ repriced t p self.old }
    {
        let Some(place) = self.places[t.get() as usize] else {
            return;
        };
        self.leave(t);
        let place = Place {
            object: place.object,
            priority: p,
            released: place.released,
            serial: place.serial,
        };
        self.enter(t, &place);
    }

    /// What the thread waits for. None exactly where it waits nowhere.
    pub fn place_of(&self, t: Tid) -> Option<WaitObj>
        requires { t < length self.now }
        ensures { result ≡ option_map (λ p. p.object) (place_in self.now t) }
    {
        match &self.places[t.get() as usize] {
            None => None,
            Some(place) => Some(place.object),
        }
    }

    /// The thread that is served first of those that wait for the object. None exactly where nobody does.
    pub fn best(&self, obj: WaitObj) -> Option<Tid>
        ensures { result ≡ best_of obj self.now }
    {
        self.links.stand_once();
        match self.links.front(obj.number()) {
            Some(node) => Tid::try_new(node as u16),
            None => None,
        }
    }

    /// The thread that is served next after this one, of those that wait for the same object. None exactly where there is none.
    pub fn next_waiter(&self, t: Tid) -> Option<Tid>
        requires known { t < length self.now }
        requires waits { IsSome (place_in self.now t) }
        ensures { result ≡ next_of t self.now }
    {
        self.links.stand_once();
        match self.links.next(t.get() as u32) {
            Some(node) => Tid::try_new(node as u16),
            None => None,
        }
    }

    /// The thread that is served first of those that wait for the signal, 0 to 31, where each thread that waits for signals waits
    /// for those of its set. None exactly where nobody waits for it. The set of a thread is asked for only as the search comes to it.
    pub fn best_for_signal<S: SignalSets>(&self, sets: &S, sig: u8) -> Option<Tid>
        requires sets { length self.now ≤ length (S.sets sets.now) }
        requires sig { sig ≤ 31 }
        ensures { result ≡ best_for sig (S.sets sets.now) self.now }
    {
        match first_awaiting(&self.links, sets, WaitObj::SigWait.number(), sig) {
            Some(node) => Tid::try_new(node as u16),
            None => None,
        }
    }

    /// Whether a thread waits for the condition with another mutex. Mostly the first that waits for it tells.
    pub fn is_bound_elsewhere(&self, c: ObjId, k: ObjId) -> bool
        ensures found { result ≡ true → (t : ℕ) × WaitsElsewhere self.now c k t }
        ensures none { result ≡ false → (t : ℕ) → WaitsElsewhere self.now c k t → ⊥ }
    {
        let list = WaitObj::Cond(c).number();
        if self.alike {
            is_first_elsewhere(&self.links, &self.places, list, k)
        } else {
            has_one_elsewhere(&self.links, &self.places, list, k)
        }
    }

    /// Costs nothing when it runs: `best` and `best_for_signal` answer by the rules of the machine whose waits these are, over flat code.
    pub fn serve_by_the_rules(&self)
        ensures waiters { BestsAreWaiters self.now }
        ensures acceptors { BestsAreAcceptors self.now }
    {
        let _threads = self.places.len();
    }
}
