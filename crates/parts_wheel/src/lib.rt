//! The due ticks of up to 1,024 items, in a wheel of eight levels: the lowest has 2,048 slots of one tick each, and each of the seven
//! above it 256, of 2,048 ticks each and then of 256 times as many as at the level below.
//!
//! Proved: a finite map from item to due tick: `next` is the least due tick, `first_due` the least item that is due, and
//! `pop_due` takes it out.
//!
//! Contracts see a finite map from item number to due tick, and the greatest `now` so far of `first_due` or `pop_due`;
//! `specs/Dues.antt` states what each call answers. The wheel stands at a tick that is at most that `now`. An item that is due later stands on
//! the list of its slot, bits tell which slots are taken, and an item whose tick has passed is a bit of a set, so that the least
//! number is found at once. The least later due tick is kept, so that `next` searches no slot (where an item has passed, it
//! goes over all due ticks), a tick before which nothing is due,
//! so that `first_due` is one comparison where nothing is, and the least number of an item that is due then, which `first_due`
//! answers. No call after `open` takes memory.
#![tactic(auto)]

ghost use Rattle.std.specs.Prelude.{◌≡◌, ◌≤◌, ◌<◌, ◌*◌, ◌^◌, None, Some, length, max, replicate, slice_set, IfOk, MatchOption};
ghost use Rattle.parts_wheel.specs.Dues.{due_of, NoneIsArmed, IsLeastDue, NoneIsDue, IsFirstDue};
ghost use Rattle.parts_wheel.specs.Slots.{IsLeastLater, IsFirstAt};

mod bits;
mod dues;
mod front;
mod moves;
mod places;
mod slots;
mod walks;

use dues::{due_of, first_of, least_of};
use front::Front;
use slots::Slots;
use std::alloc::{AllocError, Global};
use std::marker::Model;
use walks::Next;
use words_numbers::{ItemId, Tick};

/// Items and their due ticks.
#[derive(Drop)]
pub struct Wheel {
    slots: Slots,
    front: Front,
    // the greatest `now` so far
    last: u64,
}

impl Model for Wheel {
    ghost use Rattle.parts_wheel.specs.Dues.{Dues};
    ghost use Rattle.parts_wheel.specs.Slots.{IsCached};

    ghost Value = { Dues };

    ghost view = { λ w. record { dues = w.slots.dues; last = w.last } };

    ghost invariant = { λ w. IsCached w.slots w.front.least w.front.early w.front.first w.last };
}

/// The slots go on from one due tick to the next, up to now. The answer is what is due next after theirs.
fn caught_up(slots: &mut Slots, least: u64, now: u64) -> Next
    requires least { IsLeastLater slots.old.base slots.old.dues least }
    requires now { (slots.old.base ≤ now) × (now ≤ 3 * 10 ^ 18) }
    ensures dues { slots.new.dues ≡ slots.old.dues }
    ensures base { slots.new.base ≤ now }
    ensures least { IsLeastLater slots.new.base slots.new.dues result.tick }
    ensures first { IsFirstAt slots.new.dues result.tick result.first }
    ensures settled { now < result.tick }
{
    let mut next = Next {
        tick: least,
        first: None,
    };
    while next.tick <= now {
        slots.advance(next.tick);
        next = slots.least_later();
    }
    next
}

impl Wheel {
    /// A wheel for items with numbers below `ids`, none of which is armed.
    pub fn open(alloc: Global, ids: u32) -> Result<Wheel, AllocError>
        requires { ids ≤ 1024 }
        ensures { IfOk result (λ w. w ≡ record { dues = replicate ids None; last = 0 }) }
    {
        let slots = Slots::open(alloc, ids)?;
        Ok(Wheel {
            slots,
            front: Front::open(),
            last: 0,
        })
    }

    /// The item falls due at that tick, which may have passed.
    #[inline(never)]
    pub fn arm(&mut self, id: ItemId, due: Tick)
        requires { (id.number < length self.old.dues) × (due_of id.number self.old.dues ≡ None) }
        ensures { self.new ≡ record self.old { dues = slice_set self.old.dues id.number (Some due) } }
    {
        let tick = due.get();
        if tick <= self.slots.base() {
            self.front = self.front.with_passed(tick);
            self.slots.arm_far(id.number, due);
        } else {
            self.front = self.front.with_later(id.number, tick);
            self.slots.arm(id.number, due);
        }
    }

    /// The item is not armed afterwards.
    pub fn disarm(&mut self, id: ItemId)
        requires { id.number < length self.old.dues }
        ensures { self.new ≡ record self.old { dues = slice_set self.old.dues id.number None } }
    {
        if let Some(due) = self.due_of(id) {
            self.disarm_due(id, due);
        }
    }

    // The item, which is due then, is not armed afterwards.
    #[inline(never)]
    fn disarm_due(&mut self, id: ItemId, due: Tick)
        requires { (id.number < length self.old.dues) × (due_of id.number self.old.dues ≡ Some due) }
        ensures { self.new ≡ record self.old { dues = slice_set self.old.dues id.number None } }
    {
        let tick = due.get();
        if self.front.is_lead(id.number) && self.slots.is_near(tick) {
            self.slots.disarm_near(id.number, tick);
            self.front.go_on(&self.slots);
        } else {
            self.disarm_other(id, due);
        }
    }

    // The same, whatever stands with the item.
    #[inline(never)]
    fn disarm_other(&mut self, id: ItemId, due: Tick)
        requires { (id.number < length self.old.dues) × (due_of id.number self.old.dues ≡ Some due) }
        ensures { self.new ≡ record self.old { dues = slice_set self.old.dues id.number None } }
    {
        let tick = due.get();
        if tick == self.front.least && self.slots.is_near(tick) {
            self.slots.disarm_near(id.number, tick);
            self.front.look(&self.slots);
            return;
        }
        if tick == self.front.least && tick <= self.last {
            self.slots.disarm_next(id.number, tick);
            self.front.look(&self.slots);
            return;
        }
        let later = tick > self.slots.base();
        self.slots.disarm(id.number, due);
        if !later || tick == self.front.least {
            self.front.look(&self.slots);
        }
    }

    /// The item falls due then; it is not armed afterwards where that is `None`.
    #[inline(always)]
    pub fn set_due(&mut self, id: ItemId, due: Option<Tick>)
        requires { id.number < length self.old.dues }
        ensures { self.new ≡ record self.old { dues = slice_set self.old.dues id.number due } }
    {
        match (self.due_of(id), due) {
            (None, None) => (),
            (None, Some(tick)) => self.arm(id, tick),
            (Some(before), None) => self.disarm_due(id, before),
            (Some(before), Some(tick)) => {
                if before != tick {
                    self.arm_anew(id, before, tick);
                }
            }
        }
    }

    // The item, which was due before, falls due at that tick.
    #[inline(never)]
    #[tactic(auto, using(crate::proofs::Holding::set_twice))]
    fn arm_anew(&mut self, id: ItemId, before: Tick, due: Tick)
        requires { (id.number < length self.old.dues) × (due_of id.number self.old.dues ≡ Some before) }
        ensures { self.new ≡ record self.old { dues = slice_set self.old.dues id.number (Some due) } }
    {
        let tick = before.get();
        if self.front.is_first(tick) && tick < due.get() && self.slots.is_near(tick) {
            self.slots.arm_near_anew(id.number, tick, due);
            self.front.go_on(&self.slots);
        } else {
            self.arm_anew_in_full(id, before, due);
        }
    }

    // The same, whatever stands with the item.
    #[inline(never)]
    #[tactic(auto, using(crate::proofs::Holding::set_twice))]
    fn arm_anew_in_full(&mut self, id: ItemId, before: Tick, due: Tick)
        requires { (id.number < length self.old.dues) × (due_of id.number self.old.dues ≡ Some before) }
        ensures { self.new ≡ record self.old { dues = slice_set self.old.dues id.number (Some due) } }
    {
        self.disarm_due(id, before);
        self.arm(id, due);
    }

    /// The due tick of the item. None exactly where it is not armed.
    pub fn due_of(&self, id: ItemId) -> Option<Tick>
        requires { id.number < length self.now.dues }
        ensures { result ≡ due_of id.number self.now.dues }
    {
        due_of(self.slots.dues(), id.number)
    }

    /// The least due tick. None exactly where nothing is armed.
    pub fn next(&self) -> Option<Tick>
        ensures { MatchOption result (NoneIsArmed self.now.dues) (λ tick. IsLeastDue self.now.dues tick) }
    {
        if self.front.least <= self.front.early {
            return Tick::try_new(self.front.least);
        }
        match self.slots.first_passed() {
            Some(_) => least_of(self.slots.dues()),
            None => Tick::try_new(self.front.least),
        }
    }

    /// The item with the least number that is due at or before now. None exactly where none is. It stays armed. The instants need not
    /// rise: one before the greatest so far is answered by a search.
    #[inline(always)]
    pub fn first_due(&mut self, now: Tick) -> Option<ItemId>
        ensures item { MatchOption result (NoneIsDue now self.old.dues) (λ id. IsFirstDue now self.old.dues id.number) }
        ensures same { self.new.dues ≡ self.old.dues }
        ensures last { self.new.last ≡ max self.old.last now }
    {
        let Front { early, first, .. } = self.front;
        if self.last < now.get() {
            self.last = now.get();
        }
        if now.get() < early {
            return None;
        }
        match first {
            Some(number) if now.get() == early => Some(ItemId { number }),
            _ => self.search_due(now),
        }
    }

    // The first item that is due, whatever has passed.
    #[inline(never)]
    fn search_due(&mut self, now: Tick) -> Option<ItemId>
        requires { now ≤ self.old.last }
        ensures item { MatchOption result (NoneIsDue now self.old.dues) (λ id. IsFirstDue now self.old.dues id.number) }
        ensures same { self.new.dues ≡ self.old.dues }
        ensures last { self.new.last ≡ self.old.last }
    {
        if now.get() < self.last {
            return first_of(self.slots.dues(), now);
        }
        let next = caught_up(&mut self.slots, self.front.least, now.get());
        self.front = Front::of(&self.slots, next, self.front.early);
        let number = self.slots.first_passed()?;
        Some(ItemId { number })
    }

    /// Takes out the item with the least number that is due at or before now. None exactly where none is.
    pub fn pop_due(&mut self, now: Tick) -> Option<ItemId>
        requires { self.old.last ≤ now }
        ensures item { MatchOption result (NoneIsDue now self.old.dues) (λ id. IsFirstDue now self.old.dues id.number) }
        ensures gone { MatchOption result (self.new.dues ≡ self.old.dues) (λ id. self.new.dues ≡ slice_set self.old.dues id.number None) }
        ensures last { self.new.last ≡ now }
    {
        let id = self.first_due(now)?;
        self.disarm(id);
        Some(id)
    }
}
