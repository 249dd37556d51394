//! The pending signals.
ghost use Rattle.std.specs.Prelude.{◌≡◌, ◌≤◌, ◌<◌, length};
ghost use Rattle.rules_facts.specs.Signals.{signal_fact};
ghost use Rattle.rules_facts.specs.Spelled.{target_word};
ghost use Rattle.script_printer.specs.Puts.{Puts};
ghost use Rattle.kernel_texts.specs.Lines.{fact_text};
ghost use Rattle.kernel_texts.specs.Rows.{left_out};
ghost use Rattle.kernel_texts.specs.Short.{HasShortText};
ghost use Rattle.kernel_texts.specs.Picked.{is_left_out, is_told, left_in};

use kernel_lines::{Declared, thread_name};
use kernel_signals::SignalRecord;
use kernel_state::Parts;
use kernel_texts::{put_end, put_more};
use parts_io::Sink;
use script_printer::Printer;
use script_writer::Word::{Keyword, Name, Number, Signal};
use words_numbers::Tid;

// Whether it is the serial of the record that is left out.
fn is_left_out(out: Option<u64>, serial: u64) -> bool
    ensures { result ≡ is_left_out out serial }
{
    match out {
        Some(left_out) => serial == left_out,
        None => false,
    }
}

// Whether a record is told of the signal.
fn is_told(out: Option<u64>, signal: u8, r: &SignalRecord) -> bool
    ensures { result ≡ is_told out signal r.now }
{
    !is_left_out(out, r.serial()) && r.signal() == signal
}

// The thread that a signal is for, or a star where it is for the process.
fn target_word<'a>(decls: &'a Declared<'_>, target: Option<Tid>) -> &'a [u8]
    ensures word { result.now ≡ target_word decls.now target }
    ensures short { length result.now ≤ 32 }
{
    match target {
        Some(t) => thread_name(decls, t),
        None => b"*",
    }
}

/// Prints the pending records of a signal in the order in which they became pending, without that of the serial `out`.
pub fn put_signal<K: Sink>(
    out: &mut Printer<'_, K>,
    parts: &Parts,
    decls: &Declared<'_>,
    signal: u8,
    left_out: Option<u64>,
)
    ensures text { Puts K.text K.faults out.old out.new (fact_text decls.now (signal_fact (left_in left_out parts.now.machine) signal)) }
    ensures short { HasShortText decls.now (signal_fact (left_in left_out parts.now.machine) signal) }
{
    let subject = [Keyword(b"signal"), Signal(signal)];
    let mut is_begun = false;
    let mut place = 0;
    while let Some(r) = parts.pending_record(place) {
        let value = r.value();
        if is_told(left_out, signal, &r) {
            let words = [
                Keyword(r.code().text().as_bytes()),
                Number(value),
                Name(target_word(decls, r.target())),
            ];
            put_more(out, is_begun, &subject, &words);
            is_begun = true;
        }
        place += 1;
    }
    put_end(out, is_begun);
}

/// The serial of the record that ended the process; `None` where none did.
pub fn left_out(parts: &Parts) -> Option<u64>
    ensures { result ≡ left_out parts.now.machine }
{
    if !parts.is_killed() {
        return None;
    }
    for number in 0..parts.count() {
        if let Some(r) = parts.next_signal(parts.tid(number)) {
            return Some(r.serial());
        }
    }
    None
}
