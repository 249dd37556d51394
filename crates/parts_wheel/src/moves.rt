//! Nodes that leave the lists of a wheel, or come to stand on them.
ghost use Rattle.std.specs.Prelude.{◌≡◌, ◌<◌, ◌≤◌, ◌*◌, ◌^◌, [], ℕ, true, false, length, MatchOption};
ghost use Rattle.parts_links.specs.Links.{list_at, on_a_list, stands_at};
ghost use Rattle.parts_wheel.specs.Bits.{ChangesBit};
ghost use Rattle.parts_wheel.specs.Slots.{AreMarked, AreSmall};
ghost use Rattle.parts_wheel.specs.Moves.{IsSized, IsTaken, IsFiled, IsNoted, IsDue, IsMoved, with_last, AreToRefile, AreRefiling};

use crate::bits::Bits;
use crate::places::list_for;
use parts_links::Links;
use words_numbers::Tick;

/// Takes the node out of its list. The answer is that list, where another node is left in it.
#[inline(always)]
pub(crate) fn take(links: &mut Links, occupied: &mut Bits, node: u32) -> Option<u32>
    requires sized { IsSized links.old occupied.old }
    requires marked { AreMarked links.old.lists occupied.old }
    requires node { (node < 1024) × (on_a_list node links.old.lists ≡ true) }
    ensures sized { IsSized links.new occupied.new }
    ensures marked { AreMarked links.new.lists occupied.new }
    ensures taken { IsTaken node links.old.lists links.new.lists }
    ensures left { (k : ℕ) → stands_at node k links.old.lists ≡ true → MatchOption result (list_at links.new.lists k ≡ []) (λ list. list ≡ k) }
{
    links.stand_once();
    let list = links.list_of(node)?;
    links.unlink(node);
    if links.front(list).is_some() {
        return Some(list);
    }
    occupied.set(list, false);
    None
}

/// Takes the node out of the list in which it stands.
#[inline(always)]
pub(crate) fn take_from(links: &mut Links, occupied: &mut Bits, list: u32, node: u32)
    requires sized { IsSized links.old occupied.old × (list < 3840) }
    requires marked { AreMarked links.old.lists occupied.old }
    requires node { (node < 1024) × (stands_at node list links.old.lists ≡ true) }
    ensures sized { IsSized links.new occupied.new }
    ensures marked { AreMarked links.new.lists occupied.new }
    ensures taken { IsTaken node links.old.lists links.new.lists }
{
    links.unlink(node);
    occupied.set(list, links.front(list).is_some());
}

/// Makes the node the last of a list.
#[inline(always)]
pub(crate) fn put(links: &mut Links, occupied: &mut Bits, list: u32, node: u32)
    requires sized { IsSized links.old occupied.old }
    requires node { (node < 1024) × (list < 3840) × (on_a_list node links.old.lists ≡ false) }
    ensures sized { IsSized links.new occupied.new }
    ensures bit { ChangesBit list true occupied.old occupied.new }
    ensures put { links.new.lists ≡ with_last list node links.old.lists }
{
    links.push_back(list, node);
    occupied.set(list, true);
}

/// Puts the node into the list of its due tick, or into the set of passed items.
#[inline(always)]
pub(crate) fn file(
    links: &mut Links,
    occupied: &mut Bits,
    passed: &mut Bits,
    base: u64,
    node: u32,
    due: u64,
)
    requires sized { IsSized links.old occupied.old × (length passed.old ≡ 16) }
    requires node { (node < 1024) × (due ≤ 3 * 10 ^ 18) × (on_a_list node links.old.lists ≡ false) }
    ensures sized { IsSized links.new occupied.new × (length passed.new ≡ 16) }
    ensures noted { IsNoted base due occupied.old occupied.new }
    ensures filed { IsFiled base node due links.old.lists links.new.lists passed.old passed.new }
{
    if due <= base {
        passed.set(node, true);
    } else {
        put(links, occupied, list_for(base, due), node);
    }
}

/// Takes the node out of its list, and files it anew. The bit of the list that it leaves stays as it is.
fn refile_one(
    links: &mut Links,
    occupied: &mut Bits,
    passed: &mut Bits,
    dues: &[Option<Tick>],
    to: u64,
    node: u32,
)
    requires sized { IsSized links.old occupied.old × (length passed.old ≡ 16) }
    requires node { (node < 1024) × (on_a_list node links.old.lists ≡ true) × (node < length dues.now) × AreSmall dues.now }
    ensures sized { IsSized links.new occupied.new × (length passed.new ≡ 16) }
    ensures noted { (d : ℕ) → IsDue dues.now node d → IsNoted to d occupied.old occupied.new }
    ensures moved { (d : ℕ) → IsDue dues.now node d → IsMoved to node d links.old.lists links.new.lists passed.old passed.new }
{
    links.unlink(node);
    if let Some(due) = dues[node as usize] {
        file(links, occupied, passed, to, node, due.get());
    }
}

/// Files the nodes of one list anew, as the wheel stands at `to`.
#[inline(never)]
pub(crate) fn refile(
    links: &mut Links,
    occupied: &mut Bits,
    passed: &mut Bits,
    dues: &[Option<Tick>],
    target: u32,
    to: u64,
)
    requires sized { IsSized links.old occupied.old × (length passed.old ≡ 16) × (target < 3840) }
    requires marked { AreMarked links.old.lists occupied.old }
    requires nodes { AreToRefile target to dues.now links.old.lists × AreSmall dues.now }
    ensures sized { IsSized links.new occupied.new × (length passed.new ≡ 16) }
    ensures marked { AreMarked links.new.lists occupied.new }
    ensures empty { list_at links.new.lists target ≡ [] }
    ensures refiled { AreRefiling target to dues.now links.old.lists links.new.lists passed.old passed.new }
{
    occupied.set(target, false);
    let mut first = links.front(target);
    while let Some(node) = first {
        links.stand_once();
        first = links.next(node);
        refile_one(links, occupied, passed, dues, to, node);
    }
}
