//! The numbers of threads that change at each tick.
ghost use Rattle.std.specs.Prelude.{◌≡◌, ◌<◌, flat_map, length};
ghost use Rattle.rules_facts.specs.Numbers.{budget_numbers, frame_numbers, left_numbers, slice_numbers, thread_numbers_told};
ghost use Rattle.script_printer.specs.Puts.{Puts};
ghost use Rattle.kernel_texts.specs.Lines.{number_text};

use kernel_lines::{Declared, thread_name};
use kernel_state::Parts;
use kernel_threads::{Frame, Thread};
use parts_io::Sink;
use parts_server::Server;
use script_printer::Printer;
use script_writer::Word::{Keyword, Name, Number};
use words_numbers::Tid;
use words_script::Policy;

// Prints the ticks that are left of a unit, where any are.
fn put_left<K: Sink>(out: &mut Printer<'_, K>, decls: &Declared<'_>, t: Tid, left: u64)
    ensures { Puts K.text K.faults out.old out.new (flat_map (number_text decls.now) (left_numbers t left)) }
{
    if left > 0 {
        out.line(&[Keyword(b"left"), Name(thread_name(decls, t)), Number(left)]);
    }
}

// Prints the ticks of a thread and the numbers of its top frame.
fn put_top<K: Sink>(
    out: &mut Printer<'_, K>,
    decls: &Declared<'_>,
    t: Tid,
    ticks: u64,
    frames: &[Frame],
)
    ensures { Puts K.text K.faults out.old out.new (flat_map (number_text decls.now) (frame_numbers t ticks frames.now)) }
{
    if let [top, ..] = frames {
        out.line(&[
            Keyword(b"now"),
            Name(thread_name(decls, t)),
            Number(ticks),
            Number(top.register()),
            Keyword(top.result().text().as_bytes()),
            Number(top.value()),
        ]);
        put_left(out, decls, t, top.left());
    }
}

// Prints what a SCHED_RR thread has used of its interval.
fn put_slice<K: Sink>(
    out: &mut Printer<'_, K>,
    decls: &Declared<'_>,
    t: Tid,
    slice: u64,
    policy: Policy,
)
    ensures { Puts K.text K.faults out.old out.new (flat_map (number_text decls.now) (slice_numbers t slice policy)) }
{
    match policy {
        Policy::Rr(_) => out.line(&[
            Keyword(b"slice"),
            Name(thread_name(decls, t)),
            Number(slice),
        ]),
        _ => {}
    }
}

// Prints the numbers of a server.
fn put_budget<K: Sink>(
    out: &mut Printer<'_, K>,
    decls: &Declared<'_>,
    t: Tid,
    server: &Option<Server>,
)
    ensures { Puts K.text K.faults out.old out.new (flat_map (number_text decls.now) (budget_numbers t server.now)) }
{
    if let Some(server) = server {
        out.line(&[
            Keyword(b"budget"),
            Name(thread_name(decls, t)),
            Number(server.capacity()),
            Number(server.consumed()),
            Number(server.activation().get()),
            Number(server.totals().high),
            Number(server.totals().refilled),
        ]);
    }
}

/// Prints the numbers of a thread, where it lives.
pub(crate) fn put_numbers<K: Sink>(
    out: &mut Printer<'_, K>,
    parts: &Parts,
    decls: &Declared<'_>,
    t: Tid,
)
    requires { t < length parts.now.names }
    ensures { Puts K.text K.faults out.old out.new (flat_map (number_text decls.now) (thread_numbers_told parts.now.machine t)) }
{
    let thread = parts.thread(t);
    if !thread.is_live() {
        return;
    }
    put_top(out, decls, t, thread.ticks(), thread.frames());
    put_slice(out, decls, t, thread.slice(), thread.policy());
    put_budget(out, decls, t, thread.server());
}
