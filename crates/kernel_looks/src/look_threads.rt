//! A look at what is told of threads.
ghost use Rattle.std.specs.Prelude.{ℕ, ◌≡◌, ◌≤◌, ◌+◌, ◌∷◌, ◌<◌, [], length, true};
ghost use Rattle.kernel_texts.specs.Lines.{fact_text};
ghost use Rattle.kernel_texts.specs.Rows.{thread_fact_of};
ghost use Rattle.kernel_texts.specs.Short.{HasShortText};
ghost use Rattle.kernel_texts.specs.declared.rows.ThreadRow.{ThreadRow};
ghost use Rattle.kernel_texts.specs.Kept.{thread_row_kept, threads_kept};
ghost use Rattle.kernel_seen.specs.FactSeen.{IsMemoryOf};
ghost use Rattle.kernel_looks.specs.Ahead.{IsStretch, IsToldAt, past, row_from};
ghost use Rattle.kernel_looks.specs.Nothings.{is_inner, inner_rows_kept};
ghost use Rattle.kernel_looks.specs.Desk.{WentOn};

use crate::ahead::Stretch;
use crate::desk::Desk;
use crate::nothing::{are_bare_inside, thread_tells_nothing};
use kernel_lines::Declared;
use kernel_seen::{is_of_thread, see_thread};
use kernel_state::Parts;
use kernel_texts::ThreadRow;
use kernel_thread_facts::print_thread_fact;
use parts_texts::NextText;
use words_numbers::Tid;

// The text of what a row tells of a thread comes, where it tells anything.
#[inline(never)]
fn look_at_thread_fact(
    parts: &Parts,
    decls: &Declared<'_>,
    row: ThreadRow,
    t: Tid,
    next: &mut NextText,
    desk: &mut Desk,
)
    requires known { t < length parts.now.names }
    requires memory { IsMemoryOf decls.now desk.old.told.texts desk.old.seen }
    ensures kept { WentOn next.old next.new desk.old desk.new (fact_text decls.now (thread_fact_of row parts.now.machine t) ∷ []) }
    ensures short { HasShortText decls.now (thread_fact_of row parts.now.machine t) }
    ensures memory { IsMemoryOf decls.now desk.new.told.texts desk.new.seen }
{
    if thread_tells_nothing(parts, row, t) {
        desk.go_over_nothing();
        return;
    }
    next.clear();
    let failed = print_thread_fact(parts, decls, row, t, next);
    desk.keep(next, failed, &see_thread(parts, row, t));
}

// ---- a row

// Whether what a row tells of a thread is what was seen last of the fact so many places ahead, or nothing as it was.
#[inline(always)]
fn is_told_ahead(parts: &Parts, row: ThreadRow, t: Tid, ahead: usize, desk: &Desk) -> bool
    requires known { t < length parts.now.names }
    requires seen { desk.now.at + ahead < length desk.now.seen.facts }
    requires told { desk.now.at + ahead < length desk.now.told.texts }
    ensures { result ≡ true → IsToldAt (desk.now.at + ahead) desk.now (thread_fact_of row parts.now.machine t) }
{
    if thread_tells_nothing(parts, row, t) {
        return desk.is_empty_ahead(ahead);
    }
    is_of_thread(parts, row, t, desk.seen_ahead(ahead))
}

// Of how many threads from a number on, of so many, a row tells the same as last. Theirs are the facts behind the stretch.
#[inline(always)]
fn told_ahead(
    parts: &Parts,
    row: ThreadRow,
    from: u16,
    most: u16,
    stretch: &Stretch,
    desk: &Desk,
) -> u16
    requires within { from + most ≤ length parts.now.names }
    requires few { from + most ≤ 256 }
    requires stretch { IsStretch stretch.now desk.now }
    ensures few { result ≤ most }
    ensures places { stretch.now.same + result ≤ stretch.now.places }
    ensures told { (k : ℕ) → k < result → IsToldAt (desk.now.at + (stretch.now.same + k)) desk.now (thread_fact_of row parts.now.machine (from + k)) }
{
    let most = stretch.left().min(usize::from(most)) as u16;
    for k in 0..most {
        let ahead = stretch.same + usize::from(k);
        if !is_told_ahead(parts, row, parts.tid(from + k), ahead, desk) {
            return k;
        }
    }
    most
}

// Goes over threads from a number on of which a row tells the same as last, and looks at what it tells of the one behind them. It answers
// how many these are, of so many.
#[inline(always)]
fn look_at_next_facts(
    parts: &Parts,
    decls: &Declared<'_>,
    row: ThreadRow,
    from: u16,
    most: u16,
    stretch: &mut Stretch,
    next: &mut NextText,
    desk: &mut Desk,
) -> u16
    requires some { 0 < most }
    requires within { from + most ≤ length parts.now.names }
    requires few { from + most ≤ 256 }
    requires stretch { IsStretch stretch.old desk.old }
    requires memory { IsMemoryOf decls.now desk.old.told.texts desk.old.seen }
    ensures some { 0 < result }
    ensures few { result ≤ most }
    ensures stretch { IsStretch stretch.new desk.new }
    ensures kept { WentOn next.old next.new (past stretch.old desk.old) (past stretch.new desk.new) (row_from decls.now row parts.now.machine from result) }
    ensures short { (k : ℕ) → k < result → HasShortText decls.now (thread_fact_of row parts.now.machine (from + k)) }
    ensures memory { IsMemoryOf decls.now desk.new.told.texts desk.new.seen }
{
    let same = told_ahead(parts, row, from, most, stretch, desk);
    stretch.skip(usize::from(same));
    if same == most {
        return most;
    }
    desk.go_on(stretch.same);
    look_at_thread_fact(parts, decls, row, parts.tid(from + same), next, desk);
    *stretch = Stretch::begin(desk);
    same + 1
}

// Looks at a row of threads, by number.
#[inline(always)]
fn look_at_thread_row(
    parts: &Parts,
    decls: &Declared<'_>,
    row: ThreadRow,
    next: &mut NextText,
    desk: &mut Desk,
)
    requires memory { IsMemoryOf decls.now desk.old.told.texts desk.old.seen }
    ensures kept { WentOn next.old next.new desk.old desk.new (thread_row_kept decls.now row parts.now.machine) }
    ensures memory { IsMemoryOf decls.now desk.new.told.texts desk.new.seen }
    ensures short { (t : ℕ) → t < length parts.now.machine.threads → HasShortText decls.now (thread_fact_of row parts.now.machine t) }
{
    let count = parts.count();
    let mut stretch = Stretch::begin(desk);
    let mut number = 0;
    while number < count {
        let left = count - number;
        number += look_at_next_facts(parts, decls, row, number, left, &mut stretch, next, desk);
    }
    desk.go_on(stretch.same);
}

// ---- the rows

// Looks at the statuses of the threads, by number.
#[inline(never)]
fn look_at_statuses(parts: &Parts, decls: &Declared<'_>, next: &mut NextText, desk: &mut Desk)
    requires memory { IsMemoryOf decls.now desk.old.told.texts desk.old.seen }
    ensures kept { WentOn next.old next.new desk.old desk.new (thread_row_kept decls.now ThreadRow.Status parts.now.machine) }
    ensures memory { IsMemoryOf decls.now desk.new.told.texts desk.new.seen }
    ensures short { (t : ℕ) → t < length parts.now.machine.threads → HasShortText decls.now (thread_fact_of ThreadRow.Status parts.now.machine t) }
{
    look_at_thread_row(parts, decls, ThreadRow::Status, next, desk);
}

// Looks at what the servers of the threads have planned, by number.
#[inline(never)]
fn look_at_plans(parts: &Parts, decls: &Declared<'_>, next: &mut NextText, desk: &mut Desk)
    requires memory { IsMemoryOf decls.now desk.old.told.texts desk.old.seen }
    ensures kept { WentOn next.old next.new desk.old desk.new (thread_row_kept decls.now ThreadRow.Pending parts.now.machine) }
    ensures memory { IsMemoryOf decls.now desk.new.told.texts desk.new.seen }
    ensures short { (t : ℕ) → t < length parts.now.machine.threads → HasShortText decls.now (thread_fact_of ThreadRow.Pending parts.now.machine t) }
{
    look_at_thread_row(parts, decls, ThreadRow::Pending, next, desk);
}

// Looks at what threads have about them but for what their servers have planned.
#[inline(never)]
fn look_at_inner_rows_in_full(
    parts: &Parts,
    decls: &Declared<'_>,
    next: &mut NextText,
    desk: &mut Desk,
)
    requires memory { IsMemoryOf decls.now desk.old.told.texts desk.old.seen }
    ensures kept { WentOn next.old next.new desk.old desk.new (inner_rows_kept decls.now parts.now.machine) }
    ensures short { (row : ThreadRow) → is_inner row ≡ true → (t : ℕ) → t < length parts.now.machine.threads → HasShortText decls.now (thread_fact_of row parts.now.machine t) }
    ensures memory { IsMemoryOf decls.now desk.new.told.texts desk.new.seen }
{
    look_at_thread_row(parts, decls, ThreadRow::Frames, next, desk);
    look_at_thread_row(parts, decls, ThreadRow::Mask, next, desk);
    look_at_thread_row(parts, decls, ThreadRow::Cancelability, next, desk);
    look_at_thread_row(parts, decls, ThreadRow::Cleanups, next, desk);
}

// The same; where no thread has anything about it, no row is looked at by itself.
fn look_at_inner_rows(parts: &Parts, decls: &Declared<'_>, next: &mut NextText, desk: &mut Desk)
    requires memory { IsMemoryOf decls.now desk.old.told.texts desk.old.seen }
    ensures kept { WentOn next.old next.new desk.old desk.new (inner_rows_kept decls.now parts.now.machine) }
    ensures short { (row : ThreadRow) → is_inner row ≡ true → (t : ℕ) → t < length parts.now.machine.threads → HasShortText decls.now (thread_fact_of row parts.now.machine t) }
    ensures memory { IsMemoryOf decls.now desk.new.told.texts desk.new.seen }
{
    if are_bare_inside(parts) {
        desk.go_over_nothings(4 * usize::from(parts.count()));
        return;
    }
    look_at_inner_rows_in_full(parts, decls, next, desk);
}

/// Looks at all rows of threads.
pub(crate) fn look_at_threads(
    parts: &Parts,
    decls: &Declared<'_>,
    next: &mut NextText,
    desk: &mut Desk,
)
    requires memory { IsMemoryOf decls.now desk.old.told.texts desk.old.seen }
    ensures kept { WentOn next.old next.new desk.old desk.new (threads_kept decls.now parts.now.machine) }
    ensures short { (row : ThreadRow) → (t : ℕ) → t < length parts.now.machine.threads → HasShortText decls.now (thread_fact_of row parts.now.machine t) }
    ensures memory { IsMemoryOf decls.now desk.new.told.texts desk.new.seen }
{
    look_at_statuses(parts, decls, next, desk);
    look_at_inner_rows(parts, decls, next, desk);
    look_at_plans(parts, decls, next, desk);
}
