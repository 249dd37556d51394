//! What falls due.
ghost use Rattle.std.specs.Prelude.{◌≡◌, ◌≤◌, ◌<◌, Some, MatchOption};
ghost use Rattle.words_numbers.specs.Items.{item_number, item_of};

use crate::{ObjId, Tid};

/// What falls due at an instant, in the order in which items of one instant are handled.
#[derive(Clone, Copy, Debug, PartialEq, Eq)]
pub enum Item {
    /// The oldest pending replenishment of a sporadic or strict thread.
    Refill(Tid),
    /// The start of a dormant thread.
    Start(Tid),
    /// The timeout, or the end of the sleep, of a blocked thread.
    Timeout(Tid),
    /// The expiry of an interval timer.
    Timer(ObjId),
}

/// An item's number, below 1,024 where it is one of an item.
#[derive(Clone, Copy, Debug, PartialEq, Eq, PartialOrd, Ord)]
pub struct ItemId {
    pub number: u32,
}

impl Item {
    /// The item's number: t, 256 + t, 512 + t or 768 + k, so that items of one instant are handled by number.
    pub fn number(self) -> ItemId
        ensures number { result.number ≡ item_number self }
        ensures small { result.number < 1024 }
        ensures back { item_of result.number ≡ Some self }
    {
        ItemId {
            number: match self {
                Item::Refill(t) => t.get() as u32,
                Item::Start(t) => 256 + t.get() as u32,
                Item::Timeout(t) => 512 + t.get() as u32,
                Item::Timer(k) => 768 + k.get() as u32,
            },
        }
    }

    /// The item of a number; `None` exactly for 1,024 and above.
    pub fn of(id: ItemId) -> Option<Item>
        ensures item { result ≡ item_of id.number }
        ensures range { MatchOption result (1024 ≤ id.number) (λ i. item_number i ≡ id.number) }
    {
        let n = id.number;
        if n < 256 {
            Some(Item::Refill(Tid::try_new(n as u16)?))
        } else if n < 512 {
            Some(Item::Start(Tid::try_new((n - 256) as u16)?))
        } else if n < 768 {
            Some(Item::Timeout(Tid::try_new((n - 512) as u16)?))
        } else if n < 1024 {
            Some(Item::Timer(ObjId::try_new((n - 768) as u16)?))
        } else {
            None
        }
    }
}
