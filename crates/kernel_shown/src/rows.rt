//! The rows of facts, each with a fact for each thread or for each object of a kind.
ghost use Rattle.words_script.specs.declared.name_kind.NameKind.TheVariants as kind;
ghost use Rattle.script_writer.specs.Names.{names_of};
ghost use Rattle.std.specs.Prelude.{◌≡◌, ◌≤◌, ◌<◌, ◌++◌};
ghost use Rattle.script_printer.specs.Puts.{Puts};
ghost use Rattle.kernel_texts.specs.Numbered.{AreNumbered};
ghost use Rattle.kernel_texts.specs.Rows.{object_count, object_row_text, objects_text, thread_row_text, threads_text};

use kernel_lines::{Declared, know_timers, object_count, object_of};
use kernel_object_facts::put_object_facts;
use kernel_state::Parts;
use kernel_texts::{ObjectRow, ThreadRow};
use kernel_thread_facts::put_thread_fact;
use parts_io::Sink;
use script_printer::Printer;
use words_script::Script;

// ---- threads

// Prints a row of threads, by number.
fn put_thread_row<K: Sink>(
    out: &mut Printer<'_, K>,
    parts: &Parts,
    decls: &Declared<'_>,
    row: ThreadRow,
)
    ensures { Puts K.text K.faults out.old out.new (thread_row_text decls.now row parts.now.machine) }
{
    for number in 0..parts.count() {
        put_thread_fact(out, parts, decls, row, parts.tid(number));
    }
}

/// Prints all rows of threads.
pub(crate) fn put_threads<K: Sink>(out: &mut Printer<'_, K>, parts: &Parts, decls: &Declared<'_>)
    ensures { Puts K.text K.faults out.old out.new (threads_text decls.now parts.now.machine) }
{
    put_thread_row(out, parts, decls, ThreadRow::Status);
    put_thread_row(out, parts, decls, ThreadRow::Frames);
    put_thread_row(out, parts, decls, ThreadRow::Mask);
    put_thread_row(out, parts, decls, ThreadRow::Cancelability);
    put_thread_row(out, parts, decls, ThreadRow::Cleanups);
    put_thread_row(out, parts, decls, ThreadRow::Pending);
}

// ---- objects

// Prints a row of objects, by number.
fn put_object_row<K: Sink>(
    out: &mut Printer<'_, K>,
    parts: &Parts,
    decls: &Declared<'_>,
    row: ObjectRow,
)
    requires { object_count row decls.now parts.now.machine ≤ 256 }
    ensures { Puts K.text K.faults out.old out.new (object_row_text decls.now row parts.now.machine) }
{
    for number in 0..object_count(parts, decls, row) {
        put_object_facts(out, parts, decls, row, object_of(number));
    }
}

/// Prints all rows of objects but that of signals.
pub(crate) fn put_objects<K: Sink>(out: &mut Printer<'_, K>, parts: &Parts, script: &Script)
    requires numbered { AreNumbered script.now parts.now.machine }
    requires named { parts.now.names ≡ names_of kind.Thread script.now.decls }
    ensures { Puts K.text K.faults out.old out.new (objects_text script.now.decls parts.now.machine) }
{
    let decls = &Declared::of(script.decls.items(), parts);
    put_object_row(out, parts, decls, ObjectRow::Owner);
    put_object_row(out, parts, decls, ObjectRow::MutexWaiters);
    put_object_row(out, parts, decls, ObjectRow::ConditionWaiters);
    put_object_row(out, parts, decls, ObjectRow::SemaphoreWaiters);
    put_object_row(out, parts, decls, ObjectRow::Value);
    put_object_row(out, parts, decls, ObjectRow::Messages);
    put_object_row(out, parts, decls, ObjectRow::QueueWaiters);
    put_object_row(out, parts, decls, ObjectRow::Registration);
    know_timers(parts);
    put_object_row(out, parts, decls, ObjectRow::Arming);
}
