//! Whether a fact tells nothing, seen without its text.
ghost use Rattle.std.specs.Prelude.{ℕ, ◌≡◌, ◌∷◌, ◌<◌, List, [], None, false, length, true};
ghost use Rattle.words_script.specs.declared.decl.Decl.{Decl};
ghost use Rattle.rules_lists.specs.Lists.{list_of};
ghost use Rattle.rules_facts.specs.Fact.{on_list};
ghost use Rattle.rules_facts.specs.Objects.{in_service_order, owner_fact, timer_fact};
ghost use Rattle.rules_facts.specs.Queues.{registration_fact};
ghost use Rattle.rules_facts.specs.Threads.{inner_bodies, planned};
ghost use Rattle.kernel_lines.specs.InLine.{stands_in};
ghost use Rattle.kernel_texts.specs.Rows.{object_count, object_facts, thread_fact_of};
ghost use Rattle.kernel_texts.specs.declared.rows.ThreadRow.{ThreadRow};
ghost use Rattle.kernel_texts.specs.Kept.{waiters_text};
ghost use Rattle.kernel_looks.specs.Nothings.{is_inner};
ghost use Rattle.kernel_looks.specs.Nothing.{IsBare, TellNothing, TellsNothing, is_status, wait_obj};

use kernel_lines::{Declared, Line};
use kernel_state::Parts;
use kernel_texts::{ObjectRow, ThreadRow};
use kernel_threads::{Frame, Thread, is_main};
use parts_server::Server;
use parts_waiters::WaitObj;
use words_numbers::{ObjId, Prio, Tid};

/// Whether nobody stands on the list of this priority.
pub(crate) fn list_tells_nothing(parts: &Parts, p: Prio) -> bool
    ensures { result ≡ true → TellsNothing (on_list p (list_of p parts.now.machine.lists)) }
{
    match parts.thread_on_list(p, 0) {
        None => true,
        Some(_) => false,
    }
}

// ---- threads

// Whether a thread has no frame above the main one.
fn is_at_main(frames: &[Frame]) -> bool
    ensures { result ≡ true → inner_bodies frames.now ≡ [] }
{
    match frames {
        [] => true,
        [only] => is_main(only.kind()),
        _ => false,
    }
}

// Whether nothing is planned.
fn is_unplanned(server: &Option<Server>) -> bool
    ensures { result ≡ true → planned server.now ≡ [] }
{
    match server {
        None => true,
        Some(server) => server.pending().is_empty(),
    }
}

// Whether nothing holds of the cancellation of a thread.
fn is_plain(thread: &Thread) -> bool
    ensures requested { result ≡ true → thread.now.is_requested ≡ false }
    ensures enabled { result ≡ true → thread.now.is_enabled ≡ true }
    ensures ending { result ≡ true → thread.now.is_ending ≡ false }
{
    if thread.is_requested() {
        return false;
    }
    if thread.is_ending() {
        return false;
    }
    thread.is_enabled()
}

// Whether a thread that lives has nothing that a row tells; false for the row of its status.
fn is_bare(thread: &Thread, row: ThreadRow) -> bool
    ensures { result ≡ true → IsBare row thread.now }
{
    match row {
        ThreadRow::Status => false,
        ThreadRow::Frames => is_at_main(thread.frames()),
        ThreadRow::Mask => thread.mask().bits() == 0,
        ThreadRow::Cancelability => is_plain(thread),
        ThreadRow::Cleanups => thread.cleanups().is_empty(),
        ThreadRow::Pending => is_unplanned(thread.server()),
    }
}

fn is_status(row: ThreadRow) -> bool
    ensures { result ≡ is_status row }
{
    match row {
        ThreadRow::Status => true,
        ThreadRow::Frames => false,
        ThreadRow::Mask => false,
        ThreadRow::Cancelability => false,
        ThreadRow::Cleanups => false,
        ThreadRow::Pending => false,
    }
}

/// Whether a row tells nothing of a thread. Its status is told always.
#[inline(always)]
pub(crate) fn thread_tells_nothing(parts: &Parts, row: ThreadRow, t: Tid) -> bool
    requires { t < length parts.now.names }
    ensures { result ≡ true → TellsNothing (thread_fact_of row parts.now.machine t) }
{
    let thread = parts.thread(t);
    if is_bare(thread, row) {
        return true;
    }
    if thread.is_live() {
        return false;
    }
    !is_status(row)
}

// Whether a thread that lives has nothing that an inner row tells.
fn is_bare_in_each(thread: &Thread) -> bool
    ensures { result ≡ true → (row : ThreadRow) → is_inner row ≡ true → IsBare row thread.now }
{
    if !is_bare(thread, ThreadRow::Frames) {
        return false;
    }
    if !is_bare(thread, ThreadRow::Mask) {
        return false;
    }
    if !is_bare(thread, ThreadRow::Cancelability) {
        return false;
    }
    is_bare(thread, ThreadRow::Cleanups)
}

// Whether nothing is told of a thread but its status and what its server has planned.
fn is_bare_inside(parts: &Parts, t: Tid) -> bool
    requires { t < length parts.now.names }
    ensures { result ≡ true → (row : ThreadRow) → is_inner row ≡ true → TellsNothing (thread_fact_of row parts.now.machine t) }
{
    let thread = parts.thread(t);
    if is_bare_in_each(thread) {
        return true;
    }
    !thread.is_live()
}

/// Whether nothing is told of any thread but its status and what its server has planned.
pub(crate) fn are_bare_inside(parts: &Parts) -> bool
    ensures { result ≡ true → (row : ThreadRow) → is_inner row ≡ true → (t : ℕ) → t < length parts.now.machine.threads → TellsNothing (thread_fact_of row parts.now.machine t) }
{
    for number in 0..parts.count() {
        if !is_bare_inside(parts, parts.tid(number)) {
            return false;
        }
    }
    true
}

// ---- who waits

fn wait_obj(line: &Line) -> WaitObj
    ensures { result ≡ wait_obj line.now }
{
    match line {
        Line::Mutex(k) => WaitObj::Mutex(*k),
        Line::Condition(c) => WaitObj::Cond(*c),
        Line::Semaphore(k) => WaitObj::Sem(*k),
        Line::Senders(q) => WaitObj::Sender(*q),
        Line::Receivers(q) => WaitObj::Receiver(*q),
    }
}

/// Whether nobody stands in a line.
pub(crate) fn nobody_waits(parts: &Parts, line: &Line) -> bool
    ensures { result ≡ true → in_service_order parts.now.machine (stands_in line.now) ≡ [] }
{
    match parts.best_waiter(wait_obj(line)) {
        None => true,
        Some(_) => false,
    }
}

/// Whether nobody waits to send to a queue, or nobody for a message of it.
pub(crate) fn queue_tells_nothing(parts: &Parts, q: ObjId, to_send: bool) -> bool
    ensures { result ≡ true → (decls : List Decl) → waiters_text decls to_send parts.now.machine q ≡ [] }
{
    if to_send {
        return nobody_waits(parts, &Line::Senders(q));
    }
    nobody_waits(parts, &Line::Receivers(q))
}

// ---- objects

// Whether nobody owns a mutex.
fn is_unowned(parts: &Parts, k: ObjId) -> bool
    requires { k < length parts.now.machine.mutexes }
    ensures { result ≡ true → TellNothing (owner_fact parts.now.machine k ∷ []) }
{
    parts.mutex(k).owner().is_none()
}

// Whether nobody has registered with a queue.
fn is_unregistered(parts: &Parts, q: ObjId) -> bool
    requires { q < length parts.now.machine.queues }
    ensures { result ≡ true → TellNothing (registration_fact parts.now.machine q ∷ []) }
{
    parts.queue(q).registration().is_none()
}

// Whether a timer is disarmed.
fn is_disarmed(parts: &Parts, k: ObjId) -> bool
    requires { k < length parts.now.machine.timers }
    ensures { result ≡ true → TellNothing (timer_fact parts.now.machine k ∷ []) }
{
    parts.timer(k).due().is_none()
}

/// Whether a row tells nothing of an object, where that is seen at once.
#[inline(always)]
pub(crate) fn object_tells_nothing(
    parts: &Parts,
    decls: &Declared<'_>,
    row: ObjectRow,
    k: ObjId,
) -> bool
    requires { k < object_count row decls.now parts.now.machine }
    ensures { result ≡ true → TellNothing (object_facts row parts.now.machine k) }
{
    // the clauses alone speak of them
    let _ = decls;
    match row {
        ObjectRow::Owner => is_unowned(parts, k),
        ObjectRow::MutexWaiters => nobody_waits(parts, &Line::Mutex(k)),
        ObjectRow::ConditionWaiters => nobody_waits(parts, &Line::Condition(k)),
        ObjectRow::SemaphoreWaiters => nobody_waits(parts, &Line::Semaphore(k)),
        ObjectRow::Value => false,
        ObjectRow::Messages => false,
        ObjectRow::QueueWaiters => false,
        ObjectRow::Registration => is_unregistered(parts, k),
        ObjectRow::Arming => is_disarmed(parts, k),
    }
}
