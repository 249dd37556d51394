//! What is seen of a fact as a value, so that no text is written of one that is the same as last.
ghost use Rattle.std.specs.Prelude.{◌≡◌, ◌<◌, false, is_some, length, true};
ghost use Rattle.rules_lists.specs.Lists.{list_of};
ghost use Rattle.rules_facts.specs.Fact.{on_list, replenishments};
ghost use Rattle.rules_facts.specs.Threads.{cancelability_fact, mask_fact, pending_fact, thread_fact};
ghost use Rattle.kernel_texts.specs.Rows.{thread_fact_of};
ghost use Rattle.kernel_seen.specs.FactSeen.{IsOf, fact_seen};
ghost use Rattle.kernel_seen.specs.declared.fact_seen.FactSeen.TheVariants as variant;

use crate::few::{FewMessages, FewThreads, stand_on_list};
use crate::kept_line::FewWaiters;
use crate::seen::{Seen, is_as_seen, see};
use kernel_lines::LineSort;
use kernel_state::Parts;
use kernel_texts::ThreadRow;
use parts_server::Replenish;
use words_numbers::{ObjId, Prio, Tid};

/// What is seen of one fact.
#[derive(Clone, Copy)]
pub enum FactSeen {
    /// Nothing: its text alone tells it.
    Unseen,
    /// The status of a thread.
    Status(Tid, Seen),
    /// The threads on the list of a priority, the head first.
    OnList(Prio, FewThreads),
    /// Who owns a mutex, and how often it has locked it.
    Owner(ObjId, Tid, u16),
    /// The value of a semaphore.
    Value(ObjId, u16),
    /// Whom a message of a queue tells: the signal, and its value.
    Registration(ObjId, u8, u64),
    /// When an armed timer is due, and its interval.
    Arming(ObjId, u64, u64),
    /// The signals that a thread blocks.
    Masked(Tid, u32),
    /// Whether a thread was asked to end, has cancellation disabled, and is ending.
    Cancelability(Tid, bool, bool, bool),
    /// The one replenishment that the server of a thread has planned.
    PlannedOnce(Tid, Replenish),
    /// The two that it has planned, the oldest first.
    PlannedTwice(Tid, Replenish, Replenish),
    /// The messages of a queue, in the order of arrival.
    Messages(ObjId, FewMessages),
    /// Those who stand in a line.
    InLine(LineSort, ObjId, FewWaiters),
}

// ---- whether the same is seen

fn is_same_plan(a: &Replenish, b: &Replenish) -> bool
    ensures { result ≡ true → a.now ≡ b.now }
{
    a.amount == b.amount && a.due == b.due
}

fn is_planned_once(a: &FactSeen, t: Tid, plan: &Replenish) -> bool
    ensures { result ≡ true → a.now ≡ variant.PlannedOnce t plan.now }
{
    match a {
        FactSeen::PlannedOnce(u, other) => *u == t && is_same_plan(other, plan),
        _ => false,
    }
}

fn is_planned_twice(a: &FactSeen, t: Tid, first: &Replenish, second: &Replenish) -> bool
    ensures { result ≡ true → a.now ≡ variant.PlannedTwice t first.now second.now }
{
    match a {
        FactSeen::PlannedTwice(u, one, two) => {
            *u == t && is_same_plan(one, first) && is_same_plan(two, second)
        }
        _ => false,
    }
}

fn is_masked(a: &FactSeen, t: Tid, set: u32) -> bool
    ensures { result ≡ true → a.now ≡ variant.Masked t set }
{
    match a {
        FactSeen::Masked(u, other) => *u == t && *other == set,
        _ => false,
    }
}

fn has_flags(a: &FactSeen, t: Tid, requested: bool, disabled: bool, ending: bool) -> bool
    ensures { result ≡ true → a.now ≡ variant.Cancelability t requested disabled ending }
{
    match a {
        FactSeen::Cancelability(u, r, d, e) => {
            *u == t && *r == requested && *d == disabled && *e == ending
        }
        _ => false,
    }
}

// Whether those are the replenishments of a thread.
fn are_planned(t: Tid, planned: &[Replenish], last: &FactSeen) -> bool
    ensures same { result ≡ true → IsOf (replenishments t planned.now) (fact_seen last.now) }
    ensures some { result ≡ true → is_some (fact_seen last.now) ≡ true }
{
    match planned {
        [plan] => is_planned_once(last, t, plan),
        [one, two] => is_planned_twice(last, t, one, two),
        _ => false,
    }
}

// ---- what is seen now

fn see_planned(t: Tid, planned: &[Replenish]) -> FactSeen
    ensures { IsOf (replenishments t planned.now) (fact_seen result) }
{
    match planned {
        [plan] => FactSeen::PlannedOnce(t, *plan),
        [one, two] => FactSeen::PlannedTwice(t, *one, *two),
        _ => FactSeen::Unseen,
    }
}

// What is seen of the replenishments of a thread.
fn see_pending(parts: &Parts, t: Tid) -> FactSeen
    requires { t < length parts.now.names }
    ensures { IsOf (pending_fact parts.now.machine t) (fact_seen result) }
{
    if !parts.thread(t).is_live() {
        return FactSeen::Unseen;
    }
    match parts.thread(t).server() {
        None => FactSeen::Unseen,
        Some(server) => see_planned(t, server.pending()),
    }
}

fn see_mask(parts: &Parts, t: Tid) -> FactSeen
    requires { t < length parts.now.names }
    ensures { IsOf (mask_fact parts.now.machine t) (fact_seen result) }
{
    let thread = parts.thread(t);
    if thread.is_live() {
        return FactSeen::Masked(t, thread.mask().bits());
    }
    FactSeen::Unseen
}

fn see_cancelability(parts: &Parts, t: Tid) -> FactSeen
    requires { t < length parts.now.names }
    ensures { IsOf (cancelability_fact parts.now.machine t) (fact_seen result) }
{
    let thread = parts.thread(t);
    if thread.is_live() {
        return FactSeen::Cancelability(
            t,
            thread.is_requested(),
            !thread.is_enabled(),
            thread.is_ending(),
        );
    }
    FactSeen::Unseen
}

/// What is seen of a thread in a row.
pub fn see_thread(parts: &Parts, row: ThreadRow, t: Tid) -> FactSeen
    requires { t < length parts.now.names }
    ensures { IsOf (thread_fact_of row parts.now.machine t) (fact_seen result) }
{
    match row {
        ThreadRow::Status => FactSeen::Status(t, see(parts, t)),
        ThreadRow::Frames => FactSeen::Unseen,
        ThreadRow::Mask => see_mask(parts, t),
        ThreadRow::Cancelability => see_cancelability(parts, t),
        ThreadRow::Cleanups => FactSeen::Unseen,
        ThreadRow::Pending => see_pending(parts, t),
    }
}

// ---- whether what was seen last is still so

/// Whether that is what the list of a priority tells.
pub fn is_list(parts: &Parts, p: Prio, last: &FactSeen) -> bool
    ensures same { result ≡ true → IsOf (on_list p (list_of p parts.now.machine.lists)) (fact_seen last.now) }
    ensures some { result ≡ true → is_some (fact_seen last.now) ≡ true }
{
    match last {
        FactSeen::OnList(q, few) => *q == p && stand_on_list(parts, p, few),
        _ => false,
    }
}

// Whether that is the status of a thread.
#[inline(always)]
fn is_status(parts: &Parts, t: Tid, last: &FactSeen) -> bool
    requires { t < length parts.now.names }
    ensures same { result ≡ true → IsOf (thread_fact parts.now.machine t) (fact_seen last.now) }
    ensures some { result ≡ true → is_some (fact_seen last.now) ≡ true }
{
    match last {
        FactSeen::Status(u, status) => *u == t && is_as_seen(parts, t, status),
        _ => false,
    }
}

// Whether that is what the server of a thread has planned.
#[inline(always)]
fn is_pending(parts: &Parts, t: Tid, last: &FactSeen) -> bool
    requires { t < length parts.now.names }
    ensures same { result ≡ true → IsOf (pending_fact parts.now.machine t) (fact_seen last.now) }
    ensures some { result ≡ true → is_some (fact_seen last.now) ≡ true }
{
    if !parts.thread(t).is_live() {
        return false;
    }
    match parts.thread(t).server() {
        None => false,
        Some(server) => are_planned(t, server.pending(), last),
    }
}

// Whether those are the signals that a thread blocks.
fn is_mask(parts: &Parts, t: Tid, last: &FactSeen) -> bool
    requires { t < length parts.now.names }
    ensures same { result ≡ true → IsOf (mask_fact parts.now.machine t) (fact_seen last.now) }
    ensures some { result ≡ true → is_some (fact_seen last.now) ≡ true }
{
    let thread = parts.thread(t);
    if thread.is_live() {
        return is_masked(last, t, thread.mask().bits());
    }
    false
}

// Whether that is what holds of the cancellation of a thread.
fn is_cancelability(parts: &Parts, t: Tid, last: &FactSeen) -> bool
    requires { t < length parts.now.names }
    ensures same { result ≡ true → IsOf (cancelability_fact parts.now.machine t) (fact_seen last.now) }
    ensures some { result ≡ true → is_some (fact_seen last.now) ≡ true }
{
    let thread = parts.thread(t);
    if thread.is_live() {
        let (requested, ending) = (thread.is_requested(), thread.is_ending());
        return has_flags(last, t, requested, !thread.is_enabled(), ending);
    }
    false
}

/// Whether that is what a row tells of a thread.
#[inline(always)]
pub fn is_of_thread(parts: &Parts, row: ThreadRow, t: Tid, last: &FactSeen) -> bool
    requires { t < length parts.now.names }
    ensures same { result ≡ true → IsOf (thread_fact_of row parts.now.machine t) (fact_seen last.now) }
    ensures some { result ≡ true → is_some (fact_seen last.now) ≡ true }
{
    match row {
        ThreadRow::Status => is_status(parts, t, last),
        ThreadRow::Frames => false,
        ThreadRow::Mask => is_mask(parts, t, last),
        ThreadRow::Cancelability => is_cancelability(parts, t, last),
        ThreadRow::Cleanups => false,
        ThreadRow::Pending => is_pending(parts, t, last),
    }
}
