//! What is seen of objects as values.
ghost use Rattle.std.specs.Prelude.{◌≡◌, ◌<◌, is_some, length, true};
ghost use Rattle.rules_facts.specs.Objects.{owner_fact, timer_fact};
ghost use Rattle.rules_facts.specs.Queues.{messages_fact, registration_fact};
ghost use Rattle.kernel_texts.specs.Rows.{object_count, object_facts};
ghost use Rattle.kernel_seen.specs.FactSeen.{IsOf, IsOnlyOf, fact_seen};
ghost use Rattle.kernel_seen.specs.declared.fact_seen.FactSeen.TheVariants as variant;

use crate::fact_seen::FactSeen;
use crate::few::{are_held, see_messages};
use crate::kept_line::{is_line, see_line};
use kernel_lines::{Declared, Line};
use kernel_state::Parts;
use kernel_texts::ObjectRow;
use words_numbers::{ObjId, Tid};

// ---- whether the same is seen

fn is_owner(a: &FactSeen, k: ObjId, t: Tid, count: u16) -> bool
    ensures { result ≡ true → a.now ≡ variant.Owner k t count }
{
    match a {
        FactSeen::Owner(j, u, other) => *j == k && *u == t && *other == count,
        _ => false,
    }
}

fn is_value(a: &FactSeen, k: ObjId, value: u16) -> bool
    ensures { result ≡ true → a.now ≡ variant.Value k value }
{
    match a {
        FactSeen::Value(j, other) => *j == k && *other == value,
        _ => false,
    }
}

fn is_registration(a: &FactSeen, q: ObjId, signal: u8, value: u64) -> bool
    ensures { result ≡ true → a.now ≡ variant.Registration q signal value }
{
    match a {
        FactSeen::Registration(j, of, other) => *j == q && *of == signal && *other == value,
        _ => false,
    }
}

fn is_arming(a: &FactSeen, k: ObjId, due: u64, interval: u64) -> bool
    ensures { result ≡ true → a.now ≡ variant.Arming k due interval }
{
    match a {
        FactSeen::Arming(j, at, every) => *j == k && *at == due && *every == interval,
        _ => false,
    }
}

// ---- what is seen now

fn see_owner(parts: &Parts, k: ObjId) -> FactSeen
    requires { k < length parts.now.machine.mutexes }
    ensures { IsOf (owner_fact parts.now.machine k) (fact_seen result) }
{
    let mutex = parts.mutex(k);
    match mutex.owner() {
        None => FactSeen::Unseen,
        Some(owner) => FactSeen::Owner(k, owner, mutex.count()),
    }
}

fn see_registration(parts: &Parts, q: ObjId) -> FactSeen
    requires { q < length parts.now.machine.queues }
    ensures { IsOf (registration_fact parts.now.machine q) (fact_seen result) }
{
    match parts.queue(q).registration() {
        None => FactSeen::Unseen,
        Some(r) => FactSeen::Registration(q, r.signal(), r.value()),
    }
}

fn see_timer(parts: &Parts, k: ObjId) -> FactSeen
    requires { k < length parts.now.machine.timers }
    ensures { IsOf (timer_fact parts.now.machine k) (fact_seen result) }
{
    let timer = parts.timer(k);
    match timer.due() {
        None => FactSeen::Unseen,
        Some(due) => FactSeen::Arming(k, due.get(), timer.interval()),
    }
}

/// What is seen of an object in a row.
pub fn see_object(parts: &Parts, decls: &Declared<'_>, row: ObjectRow, k: ObjId) -> FactSeen
    requires { k < object_count row decls.now parts.now.machine }
    ensures { IsOnlyOf (object_facts row parts.now.machine k) (fact_seen result) }
{
    let _ = decls;
    match row {
        ObjectRow::Owner => see_owner(parts, k),
        ObjectRow::MutexWaiters => see_line(parts, &Line::Mutex(k)),
        ObjectRow::ConditionWaiters => see_line(parts, &Line::Condition(k)),
        ObjectRow::SemaphoreWaiters => see_line(parts, &Line::Semaphore(k)),
        ObjectRow::Value => FactSeen::Value(k, parts.semaphore(k)),
        ObjectRow::Messages => see_messages(parts, k),
        ObjectRow::QueueWaiters => FactSeen::Unseen,
        ObjectRow::Registration => see_registration(parts, k),
        ObjectRow::Arming => see_timer(parts, k),
    }
}

// ---- whether what was seen last is still so

// Whether those are the messages of a queue.
fn are_messages(parts: &Parts, q: ObjId, last: &FactSeen) -> bool
    requires { q < length parts.now.machine.queues }
    ensures same { result ≡ true → IsOf (messages_fact parts.now.machine q) (fact_seen last.now) }
    ensures some { result ≡ true → is_some (fact_seen last.now) ≡ true }
{
    match last {
        FactSeen::Messages(j, few) => *j == q && are_held(parts, q, few),
        _ => false,
    }
}

// Whether that is the owner of a mutex.
fn is_owned(parts: &Parts, k: ObjId, last: &FactSeen) -> bool
    requires { k < length parts.now.machine.mutexes }
    ensures same { result ≡ true → IsOf (owner_fact parts.now.machine k) (fact_seen last.now) }
    ensures some { result ≡ true → is_some (fact_seen last.now) ≡ true }
{
    let mutex = parts.mutex(k);
    match mutex.owner() {
        None => false,
        Some(owner) => is_owner(last, k, owner, mutex.count()),
    }
}

// Whether that is whom a message of a queue tells.
fn is_registered(parts: &Parts, q: ObjId, last: &FactSeen) -> bool
    requires { q < length parts.now.machine.queues }
    ensures same { result ≡ true → IsOf (registration_fact parts.now.machine q) (fact_seen last.now) }
    ensures some { result ≡ true → is_some (fact_seen last.now) ≡ true }
{
    match parts.queue(q).registration() {
        None => false,
        Some(r) => is_registration(last, q, r.signal(), r.value()),
    }
}

// Whether that is when a timer is due, and its interval.
fn is_armed(parts: &Parts, k: ObjId, last: &FactSeen) -> bool
    requires { k < length parts.now.machine.timers }
    ensures same { result ≡ true → IsOf (timer_fact parts.now.machine k) (fact_seen last.now) }
    ensures some { result ≡ true → is_some (fact_seen last.now) ≡ true }
{
    let timer = parts.timer(k);
    match timer.due() {
        None => false,
        Some(due) => is_arming(last, k, due.get(), timer.interval()),
    }
}

/// Whether that is all that a row tells of an object.
#[inline(always)]
pub fn is_of_object(
    parts: &Parts,
    decls: &Declared<'_>,
    row: ObjectRow,
    k: ObjId,
    last: &FactSeen,
) -> bool
    requires { k < object_count row decls.now parts.now.machine }
    ensures same { result ≡ true → IsOnlyOf (object_facts row parts.now.machine k) (fact_seen last.now) }
    ensures some { result ≡ true → is_some (fact_seen last.now) ≡ true }
{
    let _ = decls;
    match row {
        ObjectRow::Owner => is_owned(parts, k, last),
        ObjectRow::MutexWaiters => is_line(parts, &Line::Mutex(k), last),
        ObjectRow::ConditionWaiters => is_line(parts, &Line::Condition(k), last),
        ObjectRow::SemaphoreWaiters => is_line(parts, &Line::Semaphore(k), last),
        ObjectRow::Value => is_value(last, k, parts.semaphore(k)),
        ObjectRow::Messages => are_messages(parts, k, last),
        ObjectRow::QueueWaiters => false,
        ObjectRow::Registration => is_registered(parts, k, last),
        ObjectRow::Arming => is_armed(parts, k, last),
    }
}
