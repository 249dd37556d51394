//! The text of a state.
ghost use Rattle.words_script.specs.declared.name_kind.NameKind.TheVariants as kind;
ghost use Rattle.script_writer.specs.Names.{names_of};
ghost use Rattle.std.specs.Prelude.{◌≡◌, ◌-◌, ◌≤◌, ◌<◌, false};
ghost use Rattle.parts_io.specs.Bytes.{WritesAll};
ghost use Rattle.parts_io.specs.Causes.{HasCause};
ghost use Rattle.rules_facts.specs.Shown.{killed_line, once_ended, state_line, state_text};
ghost use Rattle.script_printer.specs.Puts.{Put, Puts, outlet};
ghost use Rattle.kernel_texts.specs.Lines.{texts_below};
ghost use Rattle.kernel_texts.specs.Rows.{left_out, list_text, numbers_text, signals_text};
ghost use Rattle.kernel_texts.specs.Numbered.{AreNumbered};
ghost use Rattle.kernel_texts.specs.Picked.{left_in};

use crate::numbers::put_numbers;
use crate::rows::{put_objects, put_threads};
use kernel_lines::{Declared, know_rows};
use kernel_object_facts::{left_out, put_signal};
use kernel_state::Parts;
use kernel_thread_facts::{prio_of, put_list};
use parts_io::{Failed, Sink};
use script_printer::Printer;
use script_writer::Word::{Keyword, Number, Signal};
use words_script::Script;

// Prints the instant.
fn put_instant<K: Sink>(out: &mut Printer<'_, K>, parts: &Parts)
    ensures { Puts K.text K.faults out.old out.new (state_line parts.now.machine.now) }
{
    out.line(&[Number(parts.instant().get()), Keyword(b"state")]);
}

// Prints the signal that ended the process, where one did.
fn put_killed<K: Sink>(out: &mut Printer<'_, K>, killed: Option<u8>)
    ensures { Puts K.text K.faults out.old out.new (killed_line killed) }
{
    if let Some(signal) = killed {
        out.line(&[Keyword(b"killed"), Signal(signal)]);
    }
}

// Prints the lists, that of the greatest priority first.
fn put_lists<K: Sink>(out: &mut Printer<'_, K>, parts: &Parts, decls: &Declared<'_>)
    ensures { Puts K.text K.faults out.old out.new (texts_below (list_text decls.now 255 parts.now.machine.lists) 255) }
{
    for below in 0..255u8 {
        put_list(out, parts, decls, prio_of(255 - below));
    }
}

// Prints the pending signals, by number.
fn put_signals<K: Sink>(out: &mut Printer<'_, K>, parts: &Parts, decls: &Declared<'_>)
    ensures { Puts K.text K.faults out.old out.new (signals_text decls.now (left_in (left_out parts.now.machine) parts.now.machine)) }
{
    let out_of_it = left_out(parts);
    know_rows(parts);
    for signal in 0..32u8 {
        put_signal(out, parts, decls, signal, out_of_it);
    }
}

// Prints the numbers of the threads that live, by number.
fn put_all_numbers<K: Sink>(out: &mut Printer<'_, K>, parts: &Parts, decls: &Declared<'_>)
    ensures { Puts K.text K.faults out.old out.new (numbers_text decls.now parts.now.machine) }
{
    for number in 0..parts.count() {
        put_numbers(out, parts, decls, parts.tid(number));
    }
}

// Prints the whole state.
fn put_state<K: Sink>(out: &mut Printer<'_, K>, parts: &Parts, script: &Script)
    requires numbered { AreNumbered script.now parts.now.machine }
    requires named { parts.now.names ≡ names_of kind.Thread script.now.decls }
    ensures { Puts K.text K.faults out.old out.new (state_text script.now (once_ended parts.now.machine.killed parts.now.machine)) }
{
    let decls = &Declared::of(script.decls.items(), parts);
    know_rows(parts);
    put_instant(out, parts);
    put_killed(out, parts.killed());
    put_lists(out, parts, decls);
    put_threads(out, parts, decls);
    put_objects(out, parts, script);
    put_signals(out, parts, decls);
    put_all_numbers(out, parts, decls);
}

// Prints the whole state to a sink, and answers whether a write failed.
fn print_state<K: Sink>(parts: &Parts, script: &Script, sink: &mut K) -> bool
    requires numbered { AreNumbered script.now parts.now.machine }
    requires named { parts.now.names ≡ names_of kind.Thread script.now.decls }
    ensures { Put (outlet K.text K.faults false sink.old) (outlet K.text K.faults result sink.new) (state_text script.now (once_ended parts.now.machine.killed parts.now.machine)) }
{
    let mut out = Printer::new(sink);
    put_state(&mut out, parts, script);
    out.failed()
}

/// Writes the state as `show` tells it: its instant, the signal that ended the process where one did, the facts that are not empty, and
/// the numbers of the threads that live. Where the process has ended it is the state without the record that ended it. It takes no memory.
///
/// `Err` comes only where the sink's count of faults rose in this call, and then a part from the front of the text was appended.
pub fn write_state<K: Sink>(parts: &Parts, script: &Script, sink: &mut K) -> Result<(), Failed>
    requires numbered { AreNumbered script.now parts.now.machine }
    requires named { parts.now.names ≡ names_of kind.Thread script.now.decls }
    ensures written { WritesAll (K.text sink.old) (K.text sink.new) result (state_text script.now (once_ended parts.now.machine.killed parts.now.machine)) }
    ensures cause { HasCause (K.faults sink.old) (K.faults sink.new) result }
{
    if print_state(parts, script, sink) {
        return Err(Failed);
    }
    Ok(())
}
