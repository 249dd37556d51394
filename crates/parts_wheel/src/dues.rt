//! Due ticks as they stand, one for each item.
ghost use Rattle.std.specs.Prelude.{◌≡◌, ◌≤◌, ◌<◌, ℕ, Some, true, false, length, MatchOption};
ghost use Rattle.parts_wheel.specs.Dues.{due_of, NoneIsArmed, IsLeastDue, NoneIsDue, IsFirstDue, earlier};

use words_numbers::{ItemId, Tick};

/// The due tick of the item. None exactly where it is not armed.
pub(crate) fn due_of(dues: &[Option<Tick>], id: u32) -> Option<Tick>
    requires { id < length dues.now }
    ensures { result ≡ due_of id dues.now }
{
    dues[id as usize]
}

/// The least due tick of all. None exactly where nothing is armed.
pub(crate) fn least_of(dues: &[Option<Tick>]) -> Option<Tick>
    ensures { MatchOption result (NoneIsArmed dues.now) (λ tick. IsLeastDue dues.now tick) }
{
    let mut least = None;
    let mut at = 0;
    while at < dues.len() {
        least = earlier(least, dues[at]);
        at += 1;
    }
    least
}

/// The earlier of the two.
fn earlier(one: Option<Tick>, other: Option<Tick>) -> Option<Tick>
    ensures { result ≡ earlier one other }
{
    let Some(a) = one else {
        return other;
    };
    let Some(b) = other else {
        return one;
    };
    if b < a { other } else { one }
}

/// Whether that is now or has passed.
fn has_come(due: Option<Tick>, now: Tick) -> bool
    ensures come { result ≡ true → (d : ℕ) × (due ≡ Some d) × (d ≤ now) }
    ensures to_come { result ≡ false → (d : ℕ) → due ≡ Some d → now < d }
{
    match due {
        Some(d) => d <= now,
        None => false,
    }
}

/// The item with the least number that is due at or before now. None exactly where none is.
pub(crate) fn first_of(dues: &[Option<Tick>], now: Tick) -> Option<ItemId>
    requires { length dues.now ≤ 1024 }
    ensures { MatchOption result (NoneIsDue now dues.now) (λ id. IsFirstDue now dues.now id.number) }
{
    for at in 0..dues.len() {
        if has_come(dues[at], now) {
            return Some(ItemId { number: at as u32 });
        }
    }
    None
}
