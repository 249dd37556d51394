//! Whether a thread waits for a condition with another mutex, looked for among the waiters of the condition.
ghost use Rattle.std.specs.Prelude.{◌≡◌, ◌<◌, ℕ, None, length, true};
ghost use Rattle.parts_links.specs.Links.{list_at, stands_at};
ghost use Rattle.parts_waiters.specs.Bound.{AreAlike, AreAsOne, Fits, has_one, others, released_is, waits_with_other};
ghost use Rattle.parts_waiters.specs.Held.{AreHeld, id_of, number_of};

use crate::{Place, WaitObj};
use parts_links::Links;
use words_numbers::ObjId;

// Whether the thread at that place waits with another mutex.
fn is_elsewhere(place: &Option<Place>, k: ObjId) -> bool
    ensures { result ≡ waits_with_other k place.now }
{
    let Some(held) = *place else {
        return false;
    };
    held.released != k
}

/// Whether one on the list waits with another mutex.
pub(crate) fn has_one_elsewhere(
    links: &Links,
    places: &[Option<Place>],
    list: u32,
    k: ObjId,
) -> bool
    requires list { (list < length links.now.lists) × (links.now.nodes ≡ 256) }
    requires waiters { (u : ℕ) → stands_at u list links.now.lists ≡ true → u < length places.now }
    ensures { result ≡ has_one (others k places.now) (list_at links.now.lists list) }
{
    links.stand_once();
    let mut at = links.front(list);
    while let Some(node) = at {
        if is_elsewhere(&places[node as usize], k) {
            return true;
        }
        at = links.next(node);
    }
    false
}

/// The same where all on the list wait with one mutex, so that the first of them tells.
pub(crate) fn is_first_elsewhere(
    links: &Links,
    places: &[Option<Place>],
    list: u32,
    k: ObjId,
) -> bool
    requires list { list < length links.now.lists }
    requires waiters { (u : ℕ) → stands_at u list links.now.lists ≡ true → u < length places.now }
    requires alike { AreAsOne (others k places.now) (list_at links.now.lists list) }
    ensures { result ≡ has_one (others k places.now) (list_at links.now.lists list) }
{
    match links.front(list) {
        None => false,
        Some(node) => is_elsewhere(&places[node as usize], k),
    }
}

// Whether the thread at that place waits with that mutex.
fn has_released(place: &Option<Place>, k: ObjId) -> bool
    ensures { result ≡ released_is k place.now }
{
    let Some(held) = *place else {
        return false;
    };
    held.released == k
}

// Whether a thread at that place waits with the mutex of all on its list, where these wait with one: the first of them tells.
fn is_like_first(links: &Links, places: &[Option<Place>], list: u32, place: &Place) -> bool
    requires held { AreHeld places.now links.now }
    requires alike { AreAlike places.now }
    requires list { list ≡ number_of place.now.object }
    requires id { id_of place.now.object < 256 }
    ensures { result ≡ true → Fits places.now place.now }
{
    match links.front(list) {
        None => true,
        Some(node) => has_released(&places[node as usize], place.released),
    }
}

/// Whether a thread at that place waits with the mutex of all that wait for the same condition, where these wait with one. It does where
/// it waits for no condition.
#[inline(always)]
pub(crate) fn fits(links: &Links, places: &[Option<Place>], list: u32, place: &Place) -> bool
    requires held { AreHeld places.now links.now }
    requires alike { AreAlike places.now }
    requires list { list ≡ number_of place.now.object }
    requires id { id_of place.now.object < 256 }
    ensures { result ≡ true → Fits places.now place.now }
{
    let WaitObj::Cond(_) = place.object else {
        return true;
    };
    is_like_first(links, places, list, place)
}
