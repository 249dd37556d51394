//! What is due first.
ghost use Rattle.std.specs.Prelude.{◌≡◌, ◌≤◌, ◌<◌, ◌-◌, ◌*◌, ◌/◌, ◌^◌, ℕ, None, Some, true, length, slice_set};
ghost use Rattle.parts_wheel.specs.Dues.{due_of};
ghost use Rattle.parts_wheel.specs.Slots.{Placed, IsLeastLater, IsFirstAt, IsFirstWith, IsEarly, IsFront};

use crate::slots::Slots;
use crate::walks::Next;

/// What is due first.
#[derive(Clone, Copy)]
pub(crate) struct Front {
    // the least due tick after that of the slots, or `u64::MAX` where nothing is due later
    pub(crate) least: u64,
    // nothing is due before that tick
    pub(crate) early: u64,
    // the item of the least number that is due then, where that is later than the slots' tick, and it is known
    pub(crate) first: Option<u32>,
}

impl Front {
    /// Nothing is due.
    pub(crate) fn open() -> Front
        ensures { (result.least ≡ 2 ^ 64 - 1) × (result.early ≡ 2 ^ 64 - 1) × (result.first ≡ None) }
    {
        Front {
            least: u64::MAX,
            early: u64::MAX,
            first: None,
        }
    }

    /// From what is due next after the tick of the slots, where nothing is due before `early`.
    #[inline(always)]
    pub(crate) fn of(slots: &Slots, next: Next, early: u64) -> Front
        requires next { IsLeastLater slots.now.base slots.now.dues next.tick × IsFirstAt slots.now.dues next.tick next.first }
        requires early { IsEarly slots.now.dues early }
        ensures { IsFront slots.now result.least result.early result.first }
    {
        if slots.none_passed() {
            Front {
                least: next.tick,
                early: next.tick,
                first: next.first,
            }
        } else {
            Front {
                least: next.tick,
                early,
                first: None,
            }
        }
    }

    /// Whether nothing is due before that tick, and it is what is due next after that of the slots.
    #[inline(always)]
    pub(crate) fn is_first(&self, tick: u64) -> bool
        ensures { result ≡ true → (self.now.least ≡ tick) × (self.now.early ≡ tick) }
    {
        self.least == tick && self.early == tick
    }

    /// Whether that item is known to be the first that is due next.
    #[inline(always)]
    pub(crate) fn is_lead(&self, id: u32) -> bool
        ensures { result ≡ true → self.now.first ≡ Some id }
    {
        match self.first {
            Some(first) => first == id,
            None => false,
        }
    }

    /// The slots are asked anew, in which nothing is due before it was.
    #[inline(always)]
    pub(crate) fn look(&mut self, slots: &Slots)
        requires { IsEarly slots.now.dues self.old.early }
        ensures { IsFront slots.now self.new.least self.new.early self.new.first }
    {
        match slots.next_near() {
            Some(next) => *self = Front::of(slots, next, self.early),
            None => self.look_in_full(slots),
        }
    }

    /// The same where none has passed.
    #[inline(always)]
    pub(crate) fn go_on(&mut self, slots: &Slots)
        requires { IsEarly slots.now.dues self.old.early × (slots.now.base < self.old.early) }
        ensures { IsFront slots.now self.new.least self.new.early self.new.first }
    {
        match slots.next_near() {
            Some(next) => {
                self.least = next.tick;
                self.early = next.tick;
                self.first = next.first;
            }
            None => self.look_in_full(slots),
        }
    }

    // The same, whatever is due next.
    #[inline(never)]
    fn look_in_full(&mut self, slots: &Slots)
        requires { IsEarly slots.now.dues self.old.early }
        ensures { IsFront slots.now self.new.least self.new.early self.new.first }
    {
        *self = Front::of(slots, slots.least_far(self.early), self.early);
    }

    /// Once an item that was not armed falls due at that tick, which is no later than that of the slots.
    #[inline(always)]
    pub(crate) fn with_passed(self, tick: u64) -> Front
        ensures { (slots : Placed) → (id : ℕ) → tick ≤ slots.base → (id < length slots.dues) × (due_of id slots.dues ≡ None) → IsFront slots self.least self.early self.first → IsFront (record slots { dues = slice_set slots.dues id (Some tick) }) result.least result.early result.first }
    {
        let early = self.early.min(tick);
        Front {
            early,
            first: None,
            ..self
        }
    }

    /// Once an item that was not armed falls due at that tick, which is later than that of the slots.
    #[inline(always)]
    pub(crate) fn with_later(self, id: u32, tick: u64) -> Front
        requires { tick ≤ 3 * 10 ^ 18 }
        ensures { (slots : Placed) → slots.base < tick → (id < length slots.dues) × (due_of id slots.dues ≡ None) → IsFront slots self.least self.early self.first → IsFront (record slots { dues = slice_set slots.dues id (Some tick) }) result.least result.early result.first }
    {
        Front {
            least: self.least.min(tick),
            early: self.early.min(tick),
            first: self.first_with(id, tick),
        }
    }

    // Which item is first once one more falls due, later than the tick of the slots.
    #[inline(always)]
    fn first_with(&self, id: u32, tick: u64) -> Option<u32>
        ensures { IsFirstWith self.now.early self.now.first id tick result }
    {
        if tick < self.early {
            return Some(id);
        }
        match self.first {
            Some(first) if tick == self.early => Some(first.min(id)),
            first => first,
        }
    }
}
