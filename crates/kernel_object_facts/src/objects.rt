//! What is told of mutexes, semaphores and timers.
ghost use Rattle.std.specs.Prelude.{◌≡◌, ◌<◌, length};
ghost use Rattle.rules_facts.specs.Objects.{owner_fact, semaphore_fact, timer_fact};
ghost use Rattle.script_printer.specs.Puts.{Puts};
ghost use Rattle.kernel_texts.specs.Lines.{fact_text};
ghost use Rattle.kernel_texts.specs.Short.{HasShortText};

use kernel_lines::{Declared, object_name, thread_name};
use kernel_state::Parts;
use parts_io::Sink;
use script_printer::Printer;
use script_writer::Word::{Keyword, Name, Number};
use words_numbers::ObjId;
use words_script::NameKind;

/// Prints who owns a mutex, and how often it has locked it; nothing where it is free.
pub(crate) fn put_owner<K: Sink>(
    out: &mut Printer<'_, K>,
    parts: &Parts,
    decls: &Declared<'_>,
    k: ObjId,
)
    requires { k < length parts.now.machine.mutexes }
    ensures text { Puts K.text K.faults out.old out.new (fact_text decls.now (owner_fact parts.now.machine k)) }
    ensures short { HasShortText decls.now (owner_fact parts.now.machine k) }
{
    let mutex = parts.mutex(k);
    if let Some(owner) = mutex.owner() {
        out.line(&[
            Keyword(b"mutex"),
            Name(object_name(decls, NameKind::Mutex, k)),
            Name(thread_name(decls, owner)),
            Number(u64::from(mutex.count())),
        ]);
    }
}

/// Prints the value of a semaphore.
pub(crate) fn put_semaphore<K: Sink>(
    out: &mut Printer<'_, K>,
    parts: &Parts,
    decls: &Declared<'_>,
    k: ObjId,
)
    requires { k < length parts.now.machine.semaphores }
    ensures text { Puts K.text K.faults out.old out.new (fact_text decls.now (semaphore_fact parts.now.machine k)) }
    ensures short { HasShortText decls.now (semaphore_fact parts.now.machine k) }
{
    out.line(&[
        Keyword(b"sem"),
        Name(object_name(decls, NameKind::Sem, k)),
        Number(u64::from(parts.semaphore(k))),
    ]);
}

/// Prints when an armed timer is due, and its interval.
pub(crate) fn put_timer<K: Sink>(
    out: &mut Printer<'_, K>,
    parts: &Parts,
    decls: &Declared<'_>,
    k: ObjId,
)
    requires { k < length parts.now.machine.timers }
    ensures text { Puts K.text K.faults out.old out.new (fact_text decls.now (timer_fact parts.now.machine k)) }
    ensures short { HasShortText decls.now (timer_fact parts.now.machine k) }
{
    if let Some(due) = parts.timer(k).due() {
        out.line(&[
            Keyword(b"timer"),
            Name(object_name(decls, NameKind::Timer, k)),
            Number(due.get()),
            Number(parts.timer(k).interval()),
        ]);
    }
}
