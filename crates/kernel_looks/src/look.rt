//! A look at the facts of a state.
ghost use Rattle.words_script.specs.declared.name_kind.NameKind.TheVariants as kind;
ghost use Rattle.script_writer.specs.Names.{names_of};
ghost use Rattle.std.specs.Prelude.{ℕ, ◌≡◌, ◌∷◌, ◌<◌, ◌≤◌, [], is_some, length, true};
ghost use Rattle.rules_facts.specs.Facts.{facts};
ghost use Rattle.rules_facts.specs.Objects.{in_service_order};
ghost use Rattle.rules_facts.specs.Shown.{once_ended};
ghost use Rattle.kernel_lines.specs.InLine.{stands_in};
ghost use Rattle.kernel_texts.specs.Lines.{facts_text};
ghost use Rattle.kernel_texts.specs.Short.{HaveShortTexts};
ghost use Rattle.kernel_texts.specs.declared.rows.ObjectRow.{ObjectRow};
ghost use Rattle.kernel_texts.specs.Rows.{object_count, object_facts};
ghost use Rattle.kernel_texts.specs.Changed.{changed_lines};
ghost use Rattle.kernel_texts.specs.Kept.{object_row_kept, objects_kept, queue_waiters_kept, texts_of, waiters_text};
ghost use Rattle.kernel_texts.specs.Numbered.{AreNumbered};
ghost use Rattle.kernel_texts.specs.Rooms.{HasObjectsOf, facts_told};
ghost use Rattle.kernel_seen.specs.FactSeen.{IsMemoryOf, IsOf, IsOnlyOf, fact_seen};
ghost use Rattle.kernel_seen.specs.KeptLines.{line_fact, queue_line};
ghost use Rattle.kernel_looks.specs.Desk.{IsReady, WentOn, last_seen};

use crate::desk::Desk;
use crate::look_lists::look_at_lists;
use crate::look_signals::look_at_signals;
use crate::look_threads::look_at_threads;
use crate::nothing::{object_tells_nothing, queue_tells_nothing};
use kernel_lines::{Declared, Line, know_few, know_rows, object_of};
use kernel_object_facts::{print_object_facts, print_waiters};
use kernel_seen::{is_line, is_of_object, see_line, see_object};
use kernel_state::Parts;
use kernel_texts::{ObjectRow, know_names};
use parts_texts::NextText;
use words_numbers::ObjId;
use words_script::Script;

// Whether a row tells of an object what was seen last of the fact that comes, and nothing else.
#[inline(always)]
fn is_object_as_seen(
    parts: &Parts,
    decls: &Declared<'_>,
    row: ObjectRow,
    k: ObjId,
    desk: &Desk,
) -> bool
    requires { k < object_count row decls.now parts.now.machine }
    ensures same { result ≡ true → IsOnlyOf (object_facts row parts.now.machine k) (fact_seen (last_seen desk.now)) }
    ensures some { result ≡ true → is_some (fact_seen (last_seen desk.now)) ≡ true }
{
    if !desk.has_seen() {
        return false;
    }
    is_of_object(parts, decls, row, k, desk.last_seen())
}

// The text of what a row tells of an object comes.
#[inline(never)]
fn tell_object_facts(
    parts: &Parts,
    decls: &Declared<'_>,
    row: ObjectRow,
    k: ObjId,
    next: &mut NextText,
    desk: &mut Desk,
)
    requires known { k < object_count row decls.now parts.now.machine }
    requires memory { IsMemoryOf decls.now desk.old.told.texts desk.old.seen }
    ensures kept { WentOn next.old next.new desk.old desk.new (facts_text decls.now (object_facts row parts.now.machine k) ∷ []) }
    ensures short { HaveShortTexts decls.now (object_facts row parts.now.machine k) }
    ensures memory { IsMemoryOf decls.now desk.new.told.texts desk.new.seen }
{
    next.clear();
    let failed = print_object_facts(parts, decls, row, k, next);
    desk.keep(next, failed, &see_object(parts, decls, row, k));
}

#[inline(always)]
fn look_at_object_fact(
    parts: &Parts,
    decls: &Declared<'_>,
    row: ObjectRow,
    k: ObjId,
    next: &mut NextText,
    desk: &mut Desk,
)
    requires known { k < object_count row decls.now parts.now.machine }
    requires memory { IsMemoryOf decls.now desk.old.told.texts desk.old.seen }
    ensures kept { WentOn next.old next.new desk.old desk.new (facts_text decls.now (object_facts row parts.now.machine k) ∷ []) }
    ensures short { HaveShortTexts decls.now (object_facts row parts.now.machine k) }
    ensures memory { IsMemoryOf decls.now desk.new.told.texts desk.new.seen }
{
    if object_tells_nothing(parts, decls, row, k) {
        desk.go_over_nothing();
        return;
    }
    if is_object_as_seen(parts, decls, row, k, desk) {
        desk.go_over_same();
        return;
    }
    tell_object_facts(parts, decls, row, k, next, desk);
}

// Looks at a row of so many objects that has one fact for each, by number.
#[inline(always)]
fn look_at_object_row(
    parts: &Parts,
    decls: &Declared<'_>,
    row: ObjectRow,
    count: usize,
    next: &mut NextText,
    desk: &mut Desk,
)
    requires count { count ≡ object_count row decls.now parts.now.machine }
    requires few { object_count row decls.now parts.now.machine ≤ 256 }
    requires memory { IsMemoryOf decls.now desk.old.told.texts desk.old.seen }
    ensures kept { WentOn next.old next.new desk.old desk.new (object_row_kept decls.now row parts.now.machine) }
    ensures short { (k : ℕ) → k < object_count row decls.now parts.now.machine → HaveShortTexts decls.now (object_facts row parts.now.machine k) }
    ensures memory { IsMemoryOf decls.now desk.new.told.texts desk.new.seen }
{
    for number in 0..count {
        look_at_object_fact(parts, decls, row, object_of(number), next, desk);
    }
}

// The line of those who wait to send to a queue, or for a message of it.
fn queue_line(q: ObjId, to_send: bool) -> Line
    ensures { result ≡ queue_line to_send q }
{
    if to_send {
        Line::Senders(q)
    } else {
        Line::Receivers(q)
    }
}

// Whether what is told of the line is what was seen last of the fact that comes.
fn is_line_as_seen(parts: &Parts, line: &Line, desk: &Desk) -> bool
    ensures same { result ≡ true → IsOf (line_fact line.now (in_service_order parts.now.machine (stands_in line.now))) (fact_seen (last_seen desk.now)) }
    ensures some { result ≡ true → is_some (fact_seen (last_seen desk.now)) ≡ true }
{
    if !desk.has_seen() {
        return false;
    }
    is_line(parts, line, desk.last_seen())
}

// The text of who waits to send to a queue comes, or of who waits for a message of it.
#[inline(never)]
fn tell_waiters(
    parts: &Parts,
    decls: &Declared<'_>,
    q: ObjId,
    to_send: bool,
    next: &mut NextText,
    desk: &mut Desk,
)
    requires memory { IsMemoryOf decls.now desk.old.told.texts desk.old.seen }
    ensures kept { WentOn next.old next.new desk.old desk.new (waiters_text decls.now to_send parts.now.machine q ∷ []) }
    ensures memory { IsMemoryOf decls.now desk.new.told.texts desk.new.seen }
{
    let line = queue_line(q, to_send);
    next.clear();
    let failed = print_waiters(parts, decls, q, to_send, next);
    desk.keep(next, failed, &see_line(parts, &line));
}

#[inline(always)]
fn look_at_waiters(
    parts: &Parts,
    decls: &Declared<'_>,
    q: ObjId,
    to_send: bool,
    next: &mut NextText,
    desk: &mut Desk,
)
    requires memory { IsMemoryOf decls.now desk.old.told.texts desk.old.seen }
    ensures kept { WentOn next.old next.new desk.old desk.new (waiters_text decls.now to_send parts.now.machine q ∷ []) }
    ensures memory { IsMemoryOf decls.now desk.new.told.texts desk.new.seen }
{
    if queue_tells_nothing(parts, q, to_send) {
        desk.go_over_nothing();
        return;
    }
    let line = queue_line(q, to_send);
    if is_line_as_seen(parts, &line, desk) {
        desk.go_over_same();
        return;
    }
    tell_waiters(parts, decls, q, to_send, next, desk);
}

// Looks at who waits to send to each queue, and then who waits for a message of it.
fn look_at_queue_waiters(parts: &Parts, decls: &Declared<'_>, next: &mut NextText, desk: &mut Desk)
    requires few { length parts.now.machine.queues ≤ 256 }
    requires memory { IsMemoryOf decls.now desk.old.told.texts desk.old.seen }
    ensures kept { WentOn next.old next.new desk.old desk.new (queue_waiters_kept decls.now parts.now.machine) }
    ensures memory { IsMemoryOf decls.now desk.new.told.texts desk.new.seen }
{
    for number in 0..parts.queue_count() {
        look_at_waiters(parts, decls, object_of(number), true, next, desk);
        look_at_waiters(parts, decls, object_of(number), false, next, desk);
    }
}

// How many conditions are declared: the desk has a subject for each fact, and the others are of lists, signals, threads and other objects.
fn condition_count(parts: &Parts, script: &Script, desk: &Desk) -> usize
    requires objects { HasObjectsOf script.now parts.now.machine }
    requires subjects { length desk.now.subjects.texts ≡ facts_told script.now }
    ensures { result ≡ length (names_of kind.Cond script.now.decls) }
{
    // the clauses alone speak of it
    let _ = script;
    let all = desk.subjects.count();
    let threads = 6 * usize::from(parts.count());
    let locks = 2 * parts.mutex_count() + 2 * parts.semaphore_count();
    let others = 4 * parts.queue_count() + parts.timer_count();
    all - 287 - threads - locks - others
}

// Looks at all rows of objects but that of signals; so many conditions are declared.
fn look_at_objects(
    parts: &Parts,
    script: &Script,
    conditions: usize,
    next: &mut NextText,
    desk: &mut Desk,
)
    requires conditions { conditions ≡ length (names_of kind.Cond script.now.decls) }
    requires numbered { AreNumbered script.now parts.now.machine }
    requires named { parts.now.names ≡ names_of kind.Thread script.now.decls }
    requires memory { IsMemoryOf script.now.decls desk.old.told.texts desk.old.seen }
    ensures kept { WentOn next.old next.new desk.old desk.new (objects_kept script.now.decls parts.now.machine) }
    ensures short { (row : ObjectRow) → (k : ℕ) → k < object_count row script.now.decls parts.now.machine → HaveShortTexts script.now.decls (object_facts row parts.now.machine k) }
    ensures memory { IsMemoryOf script.now.decls desk.new.told.texts desk.new.seen }
{
    let decls = &Declared::of(script.decls.items(), parts);
    let mutexes = parts.mutex_count();
    let semaphores = parts.semaphore_count();
    let queues = parts.queue_count();
    look_at_object_row(parts, decls, ObjectRow::Owner, mutexes, next, desk);
    look_at_object_row(parts, decls, ObjectRow::MutexWaiters, mutexes, next, desk);
    look_at_object_row(
        parts,
        decls,
        ObjectRow::ConditionWaiters,
        conditions,
        next,
        desk,
    );
    look_at_object_row(
        parts,
        decls,
        ObjectRow::SemaphoreWaiters,
        semaphores,
        next,
        desk,
    );
    look_at_object_row(parts, decls, ObjectRow::Value, semaphores, next, desk);
    look_at_object_row(parts, decls, ObjectRow::Messages, queues, next, desk);
    look_at_queue_waiters(parts, decls, next, desk);
    look_at_object_row(parts, decls, ObjectRow::Registration, queues, next, desk);
    let timers = parts.timer_count();
    look_at_object_row(parts, decls, ObjectRow::Arming, timers, next, desk);
}

/// A look at the facts of the state. What was told of each last is replaced by what is told now, and the desk has the lines of those that
/// change, each with the instant in front. Where the process has ended they are the facts of the state without the record that ended it.
/// It takes no memory.
pub fn look_at_facts(parts: &Parts, script: &Script, next: &mut NextText, desk: &mut Desk)
    requires numbered { AreNumbered script.now parts.now.machine }
    requires named { parts.now.names ≡ names_of kind.Thread script.now.decls }
    requires objects { HasObjectsOf script.now parts.now.machine }
    requires ready { IsReady script.now next.old.room desk.old }
    ensures told { desk.new.told.texts ≡ texts_of script.now.decls (facts script.now (once_ended parts.now.machine.killed parts.now.machine)) }
    ensures lines { desk.new.lines.text ≡ changed_lines parts.now.machine.now desk.old.subjects.texts desk.old.told.texts desk.new.told.texts }
    ensures subjects { desk.new.subjects ≡ desk.old.subjects }
    ensures ready { IsReady script.now next.new.room desk.new }
{
    let conditions = condition_count(parts, script, desk);
    desk.begin(parts.instant().get());
    let items = script.decls.items();
    know_names(items);
    let decls = &Declared::of(items, parts);
    know_rows(parts);
    know_few(parts);
    look_at_lists(parts, decls, next, desk);
    look_at_threads(parts, decls, next, desk);
    look_at_objects(parts, script, conditions, next, desk);
    look_at_signals(parts, decls, next, desk);
}
