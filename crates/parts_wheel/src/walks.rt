//! Walks along the lists of a wheel.
ghost use Rattle.std.specs.Prelude.{◌≡◌, ◌<◌, ℕ, true, length, Some, IfSome};
ghost use Rattle.parts_links.specs.Links.{list_at, stands_at};
ghost use Rattle.parts_wheel.specs.Slots.{IsEarly, IsLeastOf, IsLoneOf, IsSooner, IsLeastNode};
ghost use Rattle.parts_wheel.specs.Moves.{IsDue};

use parts_links::Links;
use words_numbers::Tick;

/// The least due tick of some items, `u64::MAX` where there are none, and the item of the least number that is due then, where it is
/// known.
#[derive(Clone, Copy)]
pub struct Next {
    pub(crate) tick: u64,
    pub(crate) first: Option<u32>,
}

/// What is due next of the items in one list, of which none is due before that tick. The walk ends where a second is due then.
#[inline(always)]
pub(crate) fn least_in(links: &Links, dues: &[Option<Tick>], list: u32, early: u64) -> Next
    requires list { list < length links.now.lists }
    requires armed { (i : ℕ) → stands_at i list links.now.lists ≡ true → (d : ℕ) × IsDue dues.now i d }
    requires early { IsEarly dues.now early }
    ensures least { IsLeastOf dues.now (list_at links.now.lists list) result.tick }
    ensures lone { IsLoneOf dues.now (list_at links.now.lists list) result.tick result.first }
{
    links.stand_once();
    let mut next = Next {
        tick: u64::MAX,
        first: None,
    };
    let mut at = links.front(list);
    while let Some(node) = at {
        next = sooner(next, node, dues[node as usize]);
        if next.tick == early && next.first.is_none() {
            return next;
        }
        at = links.next(node);
    }
    next
}

/// What is due next, of one item more.
#[inline(always)]
fn sooner(next: Next, node: u32, due: Option<Tick>) -> Next
    ensures { IsSooner next.tick next.first node due result.tick result.first }
{
    match due {
        Some(tick) if tick.get() < next.tick => Next {
            tick: tick.get(),
            first: Some(node),
        },
        Some(tick) if tick.get() == next.tick => Next {
            tick: next.tick,
            first: None,
        },
        _ => next,
    }
}

/// How many nodes behind the first `first_of_few` looks at.
const FEW: u32 = 7;

/// The least number of a node in a list of few. None where there are more, or none at all.
#[inline(always)]
pub(crate) fn first_of_few(links: &Links, list: u32) -> Option<u32>
    requires list { list < length links.now.lists }
    ensures { IfSome result (λ n. IsLeastNode (list_at links.now.lists list) n) }
{
    links.stand_once();
    let first = links.front(list)?;
    let mut least = first;
    let mut at = links.next(first);
    let mut left = FEW;
    while let Some(node) = at {
        if left == 0 {
            return None;
        }
        left -= 1;
        least = least.min(node);
        at = links.next(node);
    }
    Some(least)
}
