//! A look at the lists of runnable threads.
ghost use Rattle.std.specs.Prelude.{ℕ, ◌≡◌, ◌≤◌, ◌<◌, ◌+◌, ◌∷◌, [], length, true};
ghost use Rattle.rules_lists.specs.Lists.{list_of};
ghost use Rattle.rules_facts.specs.Fact.{on_list};
ghost use Rattle.kernel_texts.specs.Lines.{fact_text};
ghost use Rattle.kernel_texts.specs.Kept.{lists_kept};
ghost use Rattle.kernel_seen.specs.FactSeen.{IsMemoryOf};
ghost use Rattle.kernel_looks.specs.Ahead.{IsStretch, IsToldAt, past};
ghost use Rattle.kernel_looks.specs.Desk.{WentOn};
ghost use Rattle.kernel_looks.specs.Nothings.{list_at, lists_from};

use crate::ahead::Stretch;
use crate::desk::Desk;
use crate::nothing::list_tells_nothing;
use kernel_lines::Declared;
use kernel_seen::{is_list, see_list};
use kernel_state::Parts;
use kernel_thread_facts::{print_list, prio_of};
use parts_texts::NextText;
use words_numbers::Prio;

// Whether the list of a priority is what was seen last of the fact so many places ahead.
#[inline(always)]
fn is_list_ahead(parts: &Parts, p: Prio, ahead: usize, desk: &Desk) -> bool
    requires { desk.now.at + ahead < length desk.now.seen.facts }
    ensures { result ≡ true → IsToldAt (desk.now.at + ahead) desk.now (on_list p (list_of p parts.now.machine.lists)) }
{
    is_list(parts, p, desk.seen_ahead(ahead))
}

// The text of the list of a priority comes, where a thread stands on it.
#[inline(never)]
fn tell_list(parts: &Parts, decls: &Declared<'_>, p: Prio, next: &mut NextText, desk: &mut Desk)
    requires memory { IsMemoryOf decls.now desk.old.told.texts desk.old.seen }
    ensures kept { WentOn next.old next.new desk.old desk.new (fact_text decls.now (on_list p (list_of p parts.now.machine.lists)) ∷ []) }
    ensures memory { IsMemoryOf decls.now desk.new.told.texts desk.new.seen }
{
    if list_tells_nothing(parts, p) {
        desk.go_over_nothing();
        return;
    }
    next.clear();
    let failed = print_list(parts, decls, p, next);
    desk.keep(next, failed, &see_list(parts, p));
}

// How many lists from a place on are empty, and how many of these, from there on, told nothing last.
#[derive(Clone, Copy)]
struct Gap {
    empty: u8,
    quiet: u8,
}

// The lists from a place on that are empty, of so many. Theirs are the facts behind the stretch.
#[inline(always)]
fn gap_ahead(parts: &Parts, from: u8, most: u8, stretch: &Stretch, desk: &Desk) -> Gap
    requires some { 0 < most }
    requires within { from + most ≤ 255 }
    requires stretch { IsStretch stretch.now desk.now }
    ensures few { (result.quiet ≤ result.empty) × (result.empty ≤ most) }
    ensures places { stretch.now.same + result.quiet ≤ stretch.now.places }
    ensures told { (k : ℕ) → k < result.quiet → IsToldAt (desk.now.at + (stretch.now.same + k)) desk.now (list_at parts.now.machine.lists (from + k)) }
{
    let empty = parts.empty_lists(prio_of(255 - from), u32::from(most)) as u8;
    if empty == 0 {
        return Gap { empty, quiet: 0 };
    }
    let quiet = stretch.quiet_behind(desk, usize::from(empty)) as u8;
    Gap { empty, quiet }
}

// How many lists from a place on, of so many, are as they were told last: empty ones, and the next one. Theirs are the facts behind the
// stretch.
#[inline(always)]
fn lists_ahead(parts: &Parts, from: u8, most: u8, stretch: &Stretch, desk: &Desk) -> u8
    requires some { 0 < most }
    requires within { from + most ≤ 255 }
    requires stretch { IsStretch stretch.now desk.now }
    ensures few { result ≤ most }
    ensures places { stretch.now.same + result ≤ stretch.now.places }
    ensures told { (k : ℕ) → k < result → IsToldAt (desk.now.at + (stretch.now.same + k)) desk.now (list_at parts.now.machine.lists (from + k)) }
{
    let gap = gap_ahead(parts, from, most, stretch, desk);
    let quiet = gap.quiet;
    if quiet < gap.empty || quiet == most || stretch.left() == usize::from(quiet) {
        return quiet;
    }
    let ahead = stretch.same + usize::from(quiet);
    if is_list_ahead(parts, prio_of(255 - (from + quiet)), ahead, desk) {
        return quiet + 1;
    }
    quiet
}

// Goes over lists from a place on that are as they were told last, and looks at the one behind them. It answers how many these are, of so
// many.
#[inline(always)]
fn look_at_next_lists(
    parts: &Parts,
    decls: &Declared<'_>,
    from: u8,
    most: u8,
    stretch: &mut Stretch,
    next: &mut NextText,
    desk: &mut Desk,
) -> u8
    requires some { 0 < most }
    requires within { from + most ≤ 255 }
    requires stretch { IsStretch stretch.old desk.old }
    requires memory { IsMemoryOf decls.now desk.old.told.texts desk.old.seen }
    ensures some { 0 < result }
    ensures few { result ≤ most }
    ensures stretch { IsStretch stretch.new desk.new }
    ensures kept { WentOn next.old next.new (past stretch.old desk.old) (past stretch.new desk.new) (lists_from decls.now parts.now.machine.lists from result) }
    ensures memory { IsMemoryOf decls.now desk.new.told.texts desk.new.seen }
{
    let same = lists_ahead(parts, from, most, stretch, desk);
    if same > 0 {
        stretch.skip(usize::from(same));
        return same;
    }
    desk.go_on(stretch.same);
    tell_list(parts, decls, prio_of(255 - from), next, desk);
    *stretch = Stretch::begin(desk);
    1
}

// Looks at so many lists behind some that were looked at, that of the greatest priority first.
#[inline(always)]
fn look_at_each_list(
    parts: &Parts,
    decls: &Declared<'_>,
    from: u8,
    count: u8,
    stretch: &mut Stretch,
    next: &mut NextText,
    desk: &mut Desk,
)
    requires within { from + count ≤ 255 }
    requires stretch { IsStretch stretch.old desk.old }
    requires memory { IsMemoryOf decls.now desk.old.told.texts desk.old.seen }
    ensures stretch { IsStretch stretch.new desk.new }
    ensures kept { WentOn next.old next.new (past stretch.old desk.old) (past stretch.new desk.new) (lists_from decls.now parts.now.machine.lists from count) }
    ensures memory { IsMemoryOf decls.now desk.new.told.texts desk.new.seen }
{
    let mut below = 0;
    while below < count {
        let place = from + below;
        let left = count - below;
        below += look_at_next_lists(parts, decls, place, left, stretch, next, desk);
    }
}

/// Looks at the lists, that of the greatest priority first.
#[inline(never)]
pub(crate) fn look_at_lists(
    parts: &Parts,
    decls: &Declared<'_>,
    next: &mut NextText,
    desk: &mut Desk,
)
    requires memory { IsMemoryOf decls.now desk.old.told.texts desk.old.seen }
    ensures kept { WentOn next.old next.new desk.old desk.new (lists_kept decls.now parts.now.machine.lists) }
    ensures memory { IsMemoryOf decls.now desk.new.told.texts desk.new.seen }
{
    let mut stretch = Stretch::begin(desk);
    look_at_each_list(parts, decls, 0, 255, &mut stretch, next, desk);
    desk.go_on(stretch.same);
}
