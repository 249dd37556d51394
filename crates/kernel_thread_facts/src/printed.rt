//! The text of one fact of a thread or a list, printed to a sink.
ghost use Rattle.std.specs.Prelude.{◌<◌, false, length};
ghost use Rattle.rules_lists.specs.Lists.{list_of};
ghost use Rattle.rules_facts.specs.Fact.{on_list};
ghost use Rattle.script_printer.specs.Puts.{Put, outlet};
ghost use Rattle.kernel_texts.specs.Lines.{fact_text};
ghost use Rattle.kernel_texts.specs.Rows.{thread_fact_of};
ghost use Rattle.kernel_texts.specs.Short.{HasShortText};

use crate::lists::put_list;
use crate::threads::put_thread_fact;
use kernel_lines::Declared;
use kernel_state::Parts;
use kernel_texts::ThreadRow;
use parts_io::Sink;
use script_printer::Printer;
use words_numbers::{Prio, Tid};

/// Prints a list to a sink, and answers whether a write failed.
pub fn print_list<K: Sink>(parts: &Parts, decls: &Declared<'_>, p: Prio, sink: &mut K) -> bool
    ensures { Put (outlet K.text K.faults false sink.old) (outlet K.text K.faults result sink.new) (fact_text decls.now (on_list p (list_of p parts.now.machine.lists))) }
{
    let mut out = Printer::new(sink);
    put_list(&mut out, parts, decls, p);
    out.failed()
}

/// Prints a fact of a thread to a sink, and answers whether a write failed.
pub fn print_thread_fact<K: Sink>(
    parts: &Parts,
    decls: &Declared<'_>,
    row: ThreadRow,
    t: Tid,
    sink: &mut K,
) -> bool
    requires { t < length parts.now.names }
    ensures text { Put (outlet K.text K.faults false sink.old) (outlet K.text K.faults result sink.new) (fact_text decls.now (thread_fact_of row parts.now.machine t)) }
    ensures short { HasShortText decls.now (thread_fact_of row parts.now.machine t) }
{
    let mut out = Printer::new(sink);
    put_thread_fact(&mut out, parts, decls, row, t);
    out.failed()
}
