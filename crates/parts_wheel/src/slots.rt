//! The slots of a wheel.
ghost use Rattle.std.specs.Prelude.{◌≡◌, ◌<◌, ◌≤◌, ◌*◌, ◌/◌, ◌^◌, true, None, Some, length, replicate, slice_set, IfOk, IfSome, MatchOption};
ghost use Rattle.parts_wheel.specs.Dues.{due_of, NoneIsDue, IsFirstDue};
ghost use Rattle.parts_wheel.specs.Slots.{IsEarly, IsLeastLater, IsFirstAt, AreSmall};

use crate::bits::Bits;
use crate::moves::{file, put, refile, take, take_from};
use crate::places::{is_near, list_for};
use crate::walks::{Next, first_of_few, least_in};
use parts_filled::filled;
use parts_links::Links;
use std::alloc::{AllocError, Global};
use std::marker::Model;
use words_numbers::Tick;

/// Items and their due ticks. The wheel stands at a tick: an item that is due later stands in the list of its place, seen from
/// there, and one that has passed in a set.
#[derive(Drop)]
pub struct Slots {
    dues: Vec<Option<Tick>>,
    links: Links,
    // the lists that are not empty
    occupied: Bits,
    passed: Bits,
    base: u64,
}

impl Model for Slots {
    ghost use Rattle.parts_wheel.specs.Slots.{Placed};
    ghost use Rattle.parts_wheel.specs.Held.{AreHeld};

    ghost Value = { Placed };

    ghost view = { λ s. record { dues = s.dues.items; base = s.base } };

    ghost invariant = { λ s. AreHeld s.base s.dues.items s.links s.occupied s.passed };
}

impl Slots {
    /// Nothing is armed, and the wheel stands at 0.
    pub(crate) fn open(alloc: Global, ids: u32) -> Result<Slots, AllocError>
        requires { ids ≤ 1024 }
        ensures { IfOk result (λ s. s ≡ record { dues = replicate ids None; base = 0 }) }
    {
        let dues = filled(alloc, ids as usize, None)?;
        // 2,048 lists of the lowest level and 256 of each of the seven above it, with a bit each; 1,024 items, with a bit each
        let links = Links::open(alloc, 1024, 3840)?;
        let occupied = Bits::open(alloc, 60)?;
        let passed = Bits::open(alloc, 16)?;
        Ok(Slots {
            dues,
            links,
            occupied,
            passed,
            base: 0,
        })
    }

    pub(crate) fn base(&self) -> u64
        ensures { result ≡ self.now.base }
    {
        self.base
    }

    pub(crate) fn dues(&self) -> &[Option<Tick>]
        ensures value { result.now ≡ self.now.dues }
        ensures small { AreSmall self.now.dues }
        ensures few { length self.now.dues ≤ 1024 }
    {
        self.dues.as_slice()
    }

    #[inline(always)]
    pub(crate) fn arm(&mut self, id: u32, due: Tick)
        requires { (id < length self.old.dues) × (due_of id self.old.dues ≡ None) }
        ensures { self.new ≡ record self.old { dues = slice_set self.old.dues id (Some due) } }
    {
        let tick = due.get();
        if tick > self.base && is_near(self.base, tick) {
            self.dues[id as usize] = Some(due);
            put(
                &mut self.links,
                &mut self.occupied,
                (tick % 2048) as u32,
                id,
            );
        } else {
            self.arm_far(id, due);
        }
    }

    /// The same, wherever the item is to stand.
    #[inline(never)]
    pub(crate) fn arm_far(&mut self, id: u32, due: Tick)
        requires { (id < length self.old.dues) × (due_of id self.old.dues ≡ None) }
        ensures { self.new ≡ record self.old { dues = slice_set self.old.dues id (Some due) } }
    {
        self.dues[id as usize] = Some(due);
        file(
            &mut self.links,
            &mut self.occupied,
            &mut self.passed,
            self.base,
            id,
            due.get(),
        );
    }

    /// The item, which is due then, is not armed afterwards.
    #[inline(always)]
    pub(crate) fn disarm(&mut self, id: u32, due: Tick)
        requires { (id < length self.old.dues) × (due_of id self.old.dues ≡ Some due) }
        ensures { self.new ≡ record self.old { dues = slice_set self.old.dues id None } }
    {
        self.dues[id as usize] = None;
        if due.get() <= self.base {
            self.passed.set(id, false);
        } else {
            take(&mut self.links, &mut self.occupied, id);
        }
    }

    /// The same for an item that is due next, and stands in the lowest level.
    #[inline(always)]
    pub(crate) fn disarm_near(&mut self, id: u32, due: u64)
        requires item { (id < length self.old.dues) × (due_of id self.old.dues ≡ Some due) }
        requires next { IsLeastLater self.old.base self.old.dues due }
        requires near { due / 2048 ≡ self.old.base / 2048 }
        ensures dues { self.new ≡ record self.old { dues = slice_set self.old.dues id None } }
        ensures later { self.old.base < due }
    {
        self.dues[id as usize] = None;
        take_from(&mut self.links, &mut self.occupied, (due % 2048) as u32, id);
    }

    /// An item that is due next, and stands in the lowest level, falls due later.
    #[inline(always)]
    pub(crate) fn arm_near_anew(&mut self, id: u32, before: u64, due: Tick)
        requires item { (id < length self.old.dues) × (due_of id self.old.dues ≡ Some before) }
        requires next { IsLeastLater self.old.base self.old.dues before }
        requires near { before / 2048 ≡ self.old.base / 2048 }
        requires later { before < due }
        ensures dues { self.new ≡ record self.old { dues = slice_set self.old.dues id (Some due) } }
        ensures later { self.old.base < before }
    {
        self.dues[id as usize] = Some(due);
        take_from(
            &mut self.links,
            &mut self.occupied,
            (before % 2048) as u32,
            id,
        );
        let list = list_for(self.base, due.get());
        put(&mut self.links, &mut self.occupied, list, id);
    }

    /// The item, which is due next, is not armed afterwards, and the wheel goes on to its tick.
    pub(crate) fn disarm_next(&mut self, id: u32, due: u64)
        requires item { (id < length self.old.dues) × (due_of id self.old.dues ≡ Some due) }
        requires next { IsLeastLater self.old.base self.old.dues due }
        ensures { self.new ≡ record { dues = slice_set self.old.dues id None; base = due } }
    {
        self.dues[id as usize] = None;
        self.base = due;
        if let Some(list) = take(&mut self.links, &mut self.occupied, id) {
            refile(
                &mut self.links,
                &mut self.occupied,
                &mut self.passed,
                &self.dues,
                list,
                due,
            );
        }
    }

    /// The wheel goes on to the least due tick after its own.
    pub(crate) fn advance(&mut self, to: u64)
        requires { IsLeastLater self.old.base self.old.dues to × (to ≤ 3 * 10 ^ 18) }
        ensures { self.new ≡ record self.old { base = to } }
    {
        let target = self.occupied.lowest();
        self.base = to;
        if let Some(target) = target {
            refile(
                &mut self.links,
                &mut self.occupied,
                &mut self.passed,
                &self.dues,
                target,
                to,
            );
        }
    }

    /// The item with the least number that has passed. None exactly where none has.
    pub(crate) fn first_passed(&self) -> Option<u32>
        ensures { MatchOption result (NoneIsDue self.now.base self.now.dues) (λ i. IsFirstDue self.now.base self.now.dues i) }
    {
        self.passed.lowest()
    }

    /// Whether no armed item has passed.
    pub(crate) fn none_passed(&self) -> bool
        ensures { result ≡ true → NoneIsDue self.now.base self.now.dues }
    {
        self.passed.is_empty()
    }

    /// Whether that tick has a list of the lowest level.
    #[inline(always)]
    pub(crate) fn is_near(&self, tick: u64) -> bool
        ensures near { result ≡ true → tick / 2048 ≡ self.now.base / 2048 }
        ensures few { length self.now.dues ≤ 1024 }
    {
        is_near(self.base, tick)
    }

    /// What is due next after the tick of the wheel. None where that stands in no list of the lowest level.
    #[inline(always)]
    pub(crate) fn next_near(&self) -> Option<Next>
        ensures { IfSome result (λ next. IsLeastLater self.now.base self.now.dues next.tick × IsFirstAt self.now.dues next.tick next.first) }
    {
        match self.occupied.lowest() {
            // a list of the lowest level is for one tick
            Some(list) if list < 2048 => Some(Next {
                tick: self.base / 2048 * 2048 + list as u64,
                first: first_of_few(&self.links, list),
            }),
            _ => None,
        }
    }

    /// The same, wherever it stands.
    #[inline(always)]
    pub(crate) fn least_later(&self) -> Next
        ensures later { IsLeastLater self.now.base self.now.dues result.tick }
        ensures first { IsFirstAt self.now.dues result.tick result.first }
    {
        match self.next_near() {
            Some(next) => next,
            None => self.least_far(0),
        }
    }

    /// The same from the items of the first list, where nothing is due before that tick.
    #[inline(never)]
    pub(crate) fn least_far(&self, early: u64) -> Next
        requires { IsEarly self.now.dues early }
        ensures later { IsLeastLater self.now.base self.now.dues result.tick }
        ensures first { IsFirstAt self.now.dues result.tick result.first }
    {
        match self.occupied.lowest() {
            Some(list) => least_in(&self.links, &self.dues, list, early),
            None => Next {
                tick: u64::MAX,
                first: None,
            },
        }
    }
}
