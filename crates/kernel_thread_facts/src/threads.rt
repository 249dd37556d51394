//! What is told of threads.
ghost use Rattle.std.specs.Prelude.{◌≡◌, ◌≤◌, ◌<◌, Option, Some, length, not};
ghost use Rattle.rules_machine.specs.State.{Frame, for_time};
ghost use Rattle.rules_machine.specs.Threads.{is_main};
ghost use Rattle.rules_server.specs.declared.Replenish.{Replenish};
ghost use Rattle.script_lex.specs.Joined.{after_blanks};
ghost use Rattle.script_writer.specs.Canon.{flag_words};
ghost use Rattle.kernel_threads.specs.Plain.{wait_of, waiting_of};
ghost use Rattle.rules_facts.specs.Fact.{blocked_thread, cancelability, inner_frames, masked, pushed_cleanups, replenishments};
ghost use Rattle.rules_facts.specs.Spelled.{awaited_words, until_words, words_if_any};
ghost use Rattle.rules_facts.specs.Threads.{awaited, blocking_of, cancelability_fact, cleanups_fact, frames_fact, inner_bodies, mask_fact, pending_fact, priorities_of, thread_fact};
ghost use Rattle.script_printer.specs.Puts.{Puts};
ghost use Rattle.kernel_texts.specs.Lines.{fact_text};
ghost use Rattle.kernel_texts.specs.Rows.{thread_fact_of};
ghost use Rattle.kernel_texts.specs.Short.{HasShortText};

use kernel_lines::{Declared, body_name, object_name, thread_name};
use kernel_state::Parts;
use kernel_texts::{ThreadRow, put_end, put_more};
use kernel_threads::{Frame, Status, Wait, Waiting, is_main};
use parts_io::Sink;
use parts_server::Replenish;
use parts_tracer::call_text;
use rules_machine::{FrameKind, call_name};
use script_printer::Printer;
use script_writer::Word;
use script_writer::Word::{Keyword, Name, Number, Signals};
use words_numbers::{ObjId, SigSet, Tick, Tid};
use words_script::NameKind;

// ---- its status

// Prints what a blocked thread waits for.
fn put_awaited<K: Sink>(out: &mut Printer<'_, K>, decls: &Declared<'_>, wait: &Wait)
    ensures { Puts K.text K.faults out.old out.new (after_blanks (awaited_words decls.now (awaited (wait_of wait.now)))) }
{
    match wait {
        Wait::Mutex(k) => out.words(&[Name(object_name(decls, NameKind::Mutex, *k))]),
        Wait::MutexAgain(k, _) => out.words(&[Name(object_name(decls, NameKind::Mutex, *k))]),
        Wait::Condition(c, _) => out.words(&[Name(object_name(decls, NameKind::Cond, *c))]),
        Wait::End(t) => out.words(&[Name(thread_name(decls, *t))]),
        Wait::Semaphore(k) => out.words(&[Name(object_name(decls, NameKind::Sem, *k))]),
        Wait::Time => out.words(&[]),
        Wait::Room(q, _) => out.words(&[Name(object_name(decls, NameKind::Queue, *q))]),
        Wait::Message(q) => out.words(&[Name(object_name(decls, NameKind::Queue, *q))]),
        Wait::Signal(set) => out.words(&[Signals(*set)]),
    }
}

// Prints until when it waits, where there is a limit.
fn put_due<K: Sink>(out: &mut Printer<'_, K>, due: Option<Tick>)
    ensures text { Puts K.text K.faults out.old out.new (after_blanks (words_if_any until_words due)) }
    ensures short { length (after_blanks (words_if_any until_words due)) ≤ 38 }
{
    match due {
        Some(at) => out.words(&[Keyword(b"until"), Number(at.get())]),
        None => out.words(&[]),
    }
}

// Prints that a thread sleeps until an instant.
fn put_sleeper<K: Sink>(
    out: &mut Printer<'_, K>,
    parts: &Parts,
    decls: &Declared<'_>,
    t: Tid,
    waiting: &Waiting,
    until: Tick,
)
    requires known { t < length parts.now.names }
    requires asleep { wait_of waiting.now.wait ≡ for_time }
    requires until { waiting.now.due ≡ Some until }
    ensures text { Puts K.text K.faults out.old out.new (fact_text decls.now (blocked_thread t (priorities_of parts.now.machine t) (blocking_of (waiting_of waiting.now)))) }
    ensures short { HasShortText decls.now (blocked_thread t (priorities_of parts.now.machine t) (blocking_of (waiting_of waiting.now))) }
{
    out.line(&[
        Keyword(b"thread"),
        Name(thread_name(decls, t)),
        Keyword(b"blocked"),
        Number(u64::from(parts.thread(t).assigned().get())),
        Number(u64::from(parts.exec(t).get())),
        Keyword(call_text(call_name(&waiting.call))),
        Keyword(b"until"),
        Number(until.get()),
    ]);
}

// Prints that a thread is blocked.
fn put_blocked<K: Sink>(
    out: &mut Printer<'_, K>,
    parts: &Parts,
    decls: &Declared<'_>,
    t: Tid,
    waiting: &Waiting,
)
    requires { t < length parts.now.names }
    ensures text { Puts K.text K.faults out.old out.new (fact_text decls.now (blocked_thread t (priorities_of parts.now.machine t) (blocking_of (waiting_of waiting.now)))) }
    ensures short { HasShortText decls.now (blocked_thread t (priorities_of parts.now.machine t) (blocking_of (waiting_of waiting.now))) }
{
    out.begin(&[
        Keyword(b"thread"),
        Name(thread_name(decls, t)),
        Keyword(b"blocked"),
        Number(u64::from(parts.thread(t).assigned().get())),
        Number(u64::from(parts.exec(t).get())),
        Keyword(call_text(call_name(&waiting.call))),
    ]);
    put_awaited(out, decls, &waiting.wait);
    put_due(out, waiting.due);
    out.end();
}

/// Prints whether a thread runs or waits, and at which priorities.
fn put_status<K: Sink>(out: &mut Printer<'_, K>, parts: &Parts, decls: &Declared<'_>, t: Tid)
    requires { t < length parts.now.names }
    ensures text { Puts K.text K.faults out.old out.new (fact_text decls.now (thread_fact parts.now.machine t)) }
    ensures short { HasShortText decls.now (thread_fact parts.now.machine t) }
{
    let subject = Keyword(b"thread");
    let name = Name(thread_name(decls, t));
    match parts.thread(t).status() {
        Status::Dormant(_) => out.line(&[subject, name, Keyword(b"dormant")]),
        Status::Runnable => out.line(&[
            subject,
            name,
            Keyword(b"ready"),
            Number(u64::from(parts.thread(t).assigned().get())),
            Number(u64::from(parts.exec(t).get())),
        ]),
        Status::Blocked(waiting) => match (&waiting.wait, waiting.due) {
            (Wait::Time, Some(until)) => put_sleeper(out, parts, decls, t, &waiting, until),
            _ => put_blocked(out, parts, decls, t, &waiting),
        },
        Status::Ended => out.line(&[subject, name, Keyword(b"ended")]),
    }
}

// ---- what it has about it

// Prints whose bodies it runs above its own, the innermost first.
fn put_inner_frames<K: Sink>(
    out: &mut Printer<'_, K>,
    decls: &Declared<'_>,
    t: Tid,
    frames: &[Frame],
)
    ensures { Puts K.text K.faults out.old out.new (fact_text decls.now (inner_frames t (inner_bodies frames.now))) }
{
    let subject = [Keyword(b"frames"), Name(thread_name(decls, t))];
    let mut is_begun = false;
    for frame in frames {
        if !is_main(frame.kind()) {
            put_more(
                out,
                is_begun,
                &subject,
                &[Name(body_name(decls, frame.body()))],
            );
            is_begun = true;
        }
    }
    put_end(out, is_begun);
}

/// Prints the frames of a thread that lives.
fn put_frames<K: Sink>(out: &mut Printer<'_, K>, parts: &Parts, decls: &Declared<'_>, t: Tid)
    requires { t < length parts.now.names }
    ensures { Puts K.text K.faults out.old out.new (fact_text decls.now (frames_fact parts.now.machine t)) }
{
    if parts.thread(t).is_live() {
        put_inner_frames(out, decls, t, parts.thread(t).frames());
    }
}

// Prints a set of signals that a thread blocks, where it is not empty.
fn put_masked<K: Sink>(out: &mut Printer<'_, K>, decls: &Declared<'_>, t: Tid, set: SigSet)
    ensures { Puts K.text K.faults out.old out.new (fact_text decls.now (masked t set)) }
{
    if set.bits() != 0 {
        out.line(&[Keyword(b"mask"), Name(thread_name(decls, t)), Signals(set)]);
    }
}

/// Prints the own mask of a thread that lives.
fn put_mask<K: Sink>(out: &mut Printer<'_, K>, parts: &Parts, decls: &Declared<'_>, t: Tid)
    requires { t < length parts.now.names }
    ensures { Puts K.text K.faults out.old out.new (fact_text decls.now (mask_fact parts.now.machine t)) }
{
    if parts.thread(t).is_live() {
        put_masked(out, decls, t, parts.thread(t).mask());
    }
}

// Prints a word, where it holds.
fn put_flag<K: Sink>(out: &mut Printer<'_, K>, word: &[u8], holds: bool)
    requires { length word.now ≤ 16 }
    ensures { Puts K.text K.faults out.old out.new (after_blanks (flag_words word.now holds)) }
{
    if holds {
        out.words(&[Keyword(word)]);
    }
}

// Prints what holds of the cancellation of a thread, where anything does.
fn put_flags<K: Sink>(
    out: &mut Printer<'_, K>,
    decls: &Declared<'_>,
    t: Tid,
    is_requested: bool,
    is_disabled: bool,
    is_ending: bool,
)
    ensures { Puts K.text K.faults out.old out.new (fact_text decls.now (cancelability t (record { is_requested = is_requested; is_disabled = is_disabled; is_ending = is_ending }))) }
{
    if !is_requested && !is_disabled && !is_ending {
        return;
    }
    out.begin(&[Keyword(b"cancelability"), Name(thread_name(decls, t))]);
    put_flag(out, b"requested", is_requested);
    put_flag(out, b"disabled", is_disabled);
    put_flag(out, b"ending", is_ending);
    out.end();
}

/// Prints the cancelability of a thread that lives.
fn put_cancelability<K: Sink>(out: &mut Printer<'_, K>, parts: &Parts, decls: &Declared<'_>, t: Tid)
    requires { t < length parts.now.names }
    ensures { Puts K.text K.faults out.old out.new (fact_text decls.now (cancelability_fact parts.now.machine t)) }
{
    let thread = parts.thread(t);
    if thread.is_live() {
        put_flags(
            out,
            decls,
            t,
            thread.is_requested(),
            !thread.is_enabled(),
            thread.is_ending(),
        );
    }
}

// Prints cleanup handlers, in their order.
fn put_handlers<K: Sink>(out: &mut Printer<'_, K>, decls: &Declared<'_>, t: Tid, handlers: &[ObjId])
    ensures { Puts K.text K.faults out.old out.new (fact_text decls.now (pushed_cleanups t handlers.now)) }
{
    let subject = [Keyword(b"cleanups"), Name(thread_name(decls, t))];
    let mut is_begun = false;
    for u in handlers {
        put_more(
            out,
            is_begun,
            &subject,
            &[Name(object_name(decls, NameKind::Cleanup, *u))],
        );
        is_begun = true;
    }
    put_end(out, is_begun);
}

/// Prints the cleanup handlers of a thread that lives, the one that was pushed last first.
fn put_cleanups<K: Sink>(out: &mut Printer<'_, K>, parts: &Parts, decls: &Declared<'_>, t: Tid)
    requires { t < length parts.now.names }
    ensures { Puts K.text K.faults out.old out.new (fact_text decls.now (cleanups_fact parts.now.machine t)) }
{
    if parts.thread(t).is_live() {
        put_handlers(out, decls, t, parts.thread(t).cleanups());
    }
}

// Prints replenishments, in their order.
fn put_planned<K: Sink>(
    out: &mut Printer<'_, K>,
    decls: &Declared<'_>,
    t: Tid,
    planned: &[Replenish],
)
    ensures text { Puts K.text K.faults out.old out.new (fact_text decls.now (replenishments t planned.now)) }
    ensures short { HasShortText decls.now (replenishments t planned.now) }
{
    let subject = [Keyword(b"pending"), Name(thread_name(decls, t))];
    let mut is_begun = false;
    for r in planned {
        put_more(
            out,
            is_begun,
            &subject,
            &[Number(r.amount), Number(r.due.get())],
        );
        is_begun = true;
    }
    put_end(out, is_begun);
}

/// Prints what the server of a thread that lives has planned, the oldest first.
fn put_pending<K: Sink>(out: &mut Printer<'_, K>, parts: &Parts, decls: &Declared<'_>, t: Tid)
    requires { t < length parts.now.names }
    ensures text { Puts K.text K.faults out.old out.new (fact_text decls.now (pending_fact parts.now.machine t)) }
    ensures short { HasShortText decls.now (pending_fact parts.now.machine t) }
{
    if !parts.thread(t).is_live() {
        return;
    }
    if let Some(server) = parts.thread(t).server() {
        put_planned(out, decls, t, server.pending());
    }
}

// ---- its rows

/// Prints what a row tells of a thread.
pub fn put_thread_fact<K: Sink>(
    out: &mut Printer<'_, K>,
    parts: &Parts,
    decls: &Declared<'_>,
    row: ThreadRow,
    t: Tid,
)
    requires { t < length parts.now.names }
    ensures text { Puts K.text K.faults out.old out.new (fact_text decls.now (thread_fact_of row parts.now.machine t)) }
    ensures short { HasShortText decls.now (thread_fact_of row parts.now.machine t) }
{
    match row {
        ThreadRow::Status => put_status(out, parts, decls, t),
        ThreadRow::Frames => put_frames(out, parts, decls, t),
        ThreadRow::Mask => put_mask(out, parts, decls, t),
        ThreadRow::Cancelability => put_cancelability(out, parts, decls, t),
        ThreadRow::Cleanups => put_cleanups(out, parts, decls, t),
        ThreadRow::Pending => put_pending(out, parts, decls, t),
    }
}
