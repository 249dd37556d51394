//! The text of one fact of an object or a signal, printed to a sink.
ghost use Rattle.std.specs.Prelude.{◌<◌, false};
ghost use Rattle.rules_facts.specs.Signals.{signal_fact};
ghost use Rattle.script_printer.specs.Puts.{Put, outlet};
ghost use Rattle.kernel_texts.specs.Lines.{fact_text, facts_text};
ghost use Rattle.kernel_texts.specs.Rows.{object_count, object_facts};
ghost use Rattle.kernel_texts.specs.Short.{HasShortText, HaveShortTexts};
ghost use Rattle.kernel_texts.specs.Kept.{waiters_text};
ghost use Rattle.kernel_texts.specs.Picked.{left_in};

use crate::rows::{put_object_facts, put_receivers, put_senders};
use crate::signals::put_signal;
use kernel_lines::Declared;
use kernel_state::Parts;
use kernel_texts::ObjectRow;
use parts_io::Sink;
use script_printer::Printer;
use words_numbers::ObjId;

/// Prints the facts of an object to a sink, and answers whether a write failed.
pub fn print_object_facts<K: Sink>(
    parts: &Parts,
    decls: &Declared<'_>,
    row: ObjectRow,
    k: ObjId,
    sink: &mut K,
) -> bool
    requires { k < object_count row decls.now parts.now.machine }
    ensures text { Put (outlet K.text K.faults false sink.old) (outlet K.text K.faults result sink.new) (facts_text decls.now (object_facts row parts.now.machine k)) }
    ensures short { HaveShortTexts decls.now (object_facts row parts.now.machine k) }
{
    let mut out = Printer::new(sink);
    put_object_facts(&mut out, parts, decls, row, k);
    out.failed()
}

/// Prints the pending records of a signal to a sink, and answers whether a write failed.
pub fn print_signal<K: Sink>(
    parts: &Parts,
    decls: &Declared<'_>,
    signal: u8,
    left_out: Option<u64>,
    sink: &mut K,
) -> bool
    ensures text { Put (outlet K.text K.faults false sink.old) (outlet K.text K.faults result sink.new) (fact_text decls.now (signal_fact (left_in left_out parts.now.machine) signal)) }
    ensures short { HasShortText decls.now (signal_fact (left_in left_out parts.now.machine) signal) }
{
    let mut out = Printer::new(sink);
    put_signal(&mut out, parts, decls, signal, left_out);
    out.failed()
}

/// Prints who waits to send to a queue, or who waits for a message of it, to a sink, and answers whether a write failed.
pub fn print_waiters<K: Sink>(
    parts: &Parts,
    decls: &Declared<'_>,
    q: ObjId,
    to_send: bool,
    sink: &mut K,
) -> bool
    ensures { Put (outlet K.text K.faults false sink.old) (outlet K.text K.faults result sink.new) (waiters_text decls.now to_send parts.now.machine q) }
{
    let mut out = Printer::new(sink);
    if to_send {
        put_senders(&mut out, parts, decls, q);
    } else {
        put_receivers(&mut out, parts, decls, q);
    }
    out.failed()
}
