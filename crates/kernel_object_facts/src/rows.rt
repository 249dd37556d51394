//! What the rows of facts tell of one object.
ghost use Rattle.std.specs.Prelude.{◌<◌};
ghost use Rattle.rules_machine.specs.Queues.{waits_to_receive, waits_to_send};
ghost use Rattle.rules_facts.specs.Fact.{receivers_of, senders_of};
ghost use Rattle.rules_facts.specs.Objects.{condition_waiters, in_service_order, mutex_waiters, semaphore_waiters};
ghost use Rattle.rules_facts.specs.Queues.{senders_and_receivers};
ghost use Rattle.script_printer.specs.Puts.{Puts};
ghost use Rattle.kernel_texts.specs.Lines.{fact_text, facts_text};
ghost use Rattle.kernel_texts.specs.Rows.{object_count, object_facts};
ghost use Rattle.kernel_texts.specs.Short.{HaveShortTexts};

use crate::objects::{put_owner, put_semaphore, put_timer};
use crate::queues::{put_messages, put_registration};
use kernel_lines::{Declared, Line, object_name, put_line};
use kernel_state::Parts;
use kernel_texts::ObjectRow;
use parts_io::Sink;
use script_printer::Printer;
use script_writer::Word::{Keyword, Name};
use words_numbers::ObjId;
use words_script::NameKind;

// ---- who waits

fn put_mutex_waiters<K: Sink>(
    out: &mut Printer<'_, K>,
    parts: &Parts,
    decls: &Declared<'_>,
    k: ObjId,
)
    ensures { Puts K.text K.faults out.old out.new (fact_text decls.now (mutex_waiters parts.now.machine k)) }
{
    let subject = [
        Keyword(b"waiters"),
        Name(object_name(decls, NameKind::Mutex, k)),
    ];
    put_line(out, parts, decls, &subject, &Line::Mutex(k));
}

fn put_condition_waiters<K: Sink>(
    out: &mut Printer<'_, K>,
    parts: &Parts,
    decls: &Declared<'_>,
    c: ObjId,
)
    ensures { Puts K.text K.faults out.old out.new (fact_text decls.now (condition_waiters parts.now.machine c)) }
{
    let subject = [
        Keyword(b"waiters"),
        Name(object_name(decls, NameKind::Cond, c)),
    ];
    put_line(out, parts, decls, &subject, &Line::Condition(c));
}

fn put_semaphore_waiters<K: Sink>(
    out: &mut Printer<'_, K>,
    parts: &Parts,
    decls: &Declared<'_>,
    k: ObjId,
)
    ensures { Puts K.text K.faults out.old out.new (fact_text decls.now (semaphore_waiters parts.now.machine k)) }
{
    let subject = [
        Keyword(b"waiters"),
        Name(object_name(decls, NameKind::Sem, k)),
    ];
    put_line(out, parts, decls, &subject, &Line::Semaphore(k));
}

/// Prints who waits for room in a queue.
pub(crate) fn put_senders<K: Sink>(
    out: &mut Printer<'_, K>,
    parts: &Parts,
    decls: &Declared<'_>,
    q: ObjId,
)
    ensures { Puts K.text K.faults out.old out.new (fact_text decls.now (senders_of q (in_service_order parts.now.machine (waits_to_send q)))) }
{
    let subject = [
        Keyword(b"senders"),
        Name(object_name(decls, NameKind::Queue, q)),
    ];
    put_line(out, parts, decls, &subject, &Line::Senders(q));
}

/// Prints who waits for a message of a queue.
pub(crate) fn put_receivers<K: Sink>(
    out: &mut Printer<'_, K>,
    parts: &Parts,
    decls: &Declared<'_>,
    q: ObjId,
)
    ensures { Puts K.text K.faults out.old out.new (fact_text decls.now (receivers_of q (in_service_order parts.now.machine (waits_to_receive q)))) }
{
    let subject = [
        Keyword(b"receivers"),
        Name(object_name(decls, NameKind::Queue, q)),
    ];
    put_line(out, parts, decls, &subject, &Line::Receivers(q));
}

// Prints who waits for room in a queue, and then who waits for a message of it.
fn put_queue_waiters<K: Sink>(
    out: &mut Printer<'_, K>,
    parts: &Parts,
    decls: &Declared<'_>,
    q: ObjId,
)
    ensures { Puts K.text K.faults out.old out.new (facts_text decls.now (senders_and_receivers parts.now.machine q)) }
{
    put_senders(out, parts, decls, q);
    put_receivers(out, parts, decls, q);
}

// ---- objects

/// Prints what a row tells of an object.
pub fn put_object_facts<K: Sink>(
    out: &mut Printer<'_, K>,
    parts: &Parts,
    decls: &Declared<'_>,
    row: ObjectRow,
    k: ObjId,
)
    requires { k < object_count row decls.now parts.now.machine }
    ensures text { Puts K.text K.faults out.old out.new (facts_text decls.now (object_facts row parts.now.machine k)) }
    ensures short { HaveShortTexts decls.now (object_facts row parts.now.machine k) }
{
    match row {
        ObjectRow::Owner => put_owner(out, parts, decls, k),
        ObjectRow::MutexWaiters => put_mutex_waiters(out, parts, decls, k),
        ObjectRow::ConditionWaiters => put_condition_waiters(out, parts, decls, k),
        ObjectRow::SemaphoreWaiters => put_semaphore_waiters(out, parts, decls, k),
        ObjectRow::Value => put_semaphore(out, parts, decls, k),
        ObjectRow::Messages => put_messages(out, parts, decls, k),
        ObjectRow::QueueWaiters => put_queue_waiters(out, parts, decls, k),
        ObjectRow::Registration => put_registration(out, parts, decls, k),
        ObjectRow::Arming => put_timer(out, parts, decls, k),
    }
}
