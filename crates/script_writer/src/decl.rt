//! The lines of declarations.
ghost use Rattle.std.specs.Prelude.{◌≡◌, ◌≤◌, ◌∷◌, ◌++◌, [], length, codes, decimal, true, false};
ghost use Rattle.script_writer.specs.Line.{line_text};
ghost use Rattle.words_numbers.specs.Words.{signal_word};
ghost use Rattle.script_writer.specs.Canon.{policy_words, start_words, protocol_words, flag_words, kind_lines, action_words, decl_lines, text_of};
ghost use Rattle.std.specs.Option.{option_map};
ghost use Rattle.script_writer.specs.Firsts.{named_words, body_in};
ghost use Rattle.script_writer.specs.Writes.{Writes};

use crate::body::{end_line, write_block, write_line};
use crate::line::Word::{Keyword, Name, Number, Signal};
use crate::line::{LineText, line_of};
use crate::names::object;
use parts_io::{Failed, Sink};
use words_numbers::{ObjId, Params, Prio};
use words_script::{Body, Decl, Kind, NameKind, Policy, Protocol};

// The line of a SCHED_FIFO or SCHED_RR thread.
fn plain_thread_line<'a>(
    name: &'a [u8],
    policy: &'a [u8],
    prio: Prio,
    start: Option<u64>,
) -> LineText
    requires name { length name.now ≤ 32 }
    requires policy { length policy.now ≤ 16 }
    ensures { result.items ≡ line_text (codes "thread" ∷ name.now ∷ policy.now ∷ decimal prio ∷ start_words start) }
{
    let prio = Number(u64::from(prio.get()));
    match start {
        Some(at) => line_of(&[
            Keyword(b"thread"),
            Name(name),
            Keyword(policy),
            prio,
            Keyword(b"at"),
            Number(at),
        ]),
        None => line_of(&[
            Keyword(b"thread"),
            Name(name),
            Keyword(policy),
            prio,
            Keyword(b"dormant"),
        ]),
    }
}

// The line of a thread with a server, by the word of the server's kind.
fn server_thread_line<'a>(
    name: &'a [u8],
    kind: &'a [u8],
    params: Params,
    start: Option<u64>,
) -> LineText
    requires name { length name.now ≤ 32 }
    requires kind { length kind.now ≤ 16 }
    ensures { result.items ≡ line_text (codes "thread" ∷ name.now ∷ kind.now ∷ decimal params.high ∷ decimal params.low
        ∷ decimal params.period ∷ decimal params.budget ∷ decimal params.max ∷ start_words start) }
{
    let thread = Keyword(b"thread");
    let name = Name(name);
    let kind = Keyword(kind);
    let high = Number(u64::from(params.high.get()));
    let low = Number(u64::from(params.low.get()));
    let period = Number(params.period);
    let budget = Number(params.budget);
    let max = Number(u64::from(params.max));
    match start {
        Some(at) => line_of(&[
            thread,
            name,
            kind,
            high,
            low,
            period,
            budget,
            max,
            Keyword(b"at"),
            Number(at),
        ]),
        None => line_of(&[
            thread,
            name,
            kind,
            high,
            low,
            period,
            budget,
            max,
            Keyword(b"dormant"),
        ]),
    }
}

fn thread_line(name: &[u8], policy: Policy, start: Option<u64>) -> LineText
    requires { length name.now ≤ 32 }
    ensures { result.items ≡ line_text (codes "thread" ∷ name.now ∷ (policy_words policy ++ start_words start)) }
{
    match policy {
        Policy::Fifo(prio) => plain_thread_line(name, b"fifo", prio, start),
        Policy::Rr(prio) => plain_thread_line(name, b"rr", prio, start),
        Policy::Sporadic(params) => server_thread_line(name, b"sporadic", params, start),
        Policy::Strict(params) => server_thread_line(name, b"strict", params, start),
    }
}

// The line of a mutex without the word of a recursive one.
fn mutex_line(name: &[u8], protocol: Protocol) -> LineText
    requires { length name.now ≤ 32 }
    ensures { result.items
        ≡ line_text (codes "mutex" ∷ name.now ∷ (protocol_words protocol ++ flag_words (codes "recursive") false)) }
{
    let mutex = Keyword(b"mutex");
    match protocol {
        Protocol::Plain => line_of(&[mutex, Name(name), Keyword(b"none")]),
        Protocol::Inherit => line_of(&[mutex, Name(name), Keyword(b"inherit")]),
        Protocol::Protect(ceiling) => line_of(&[
            mutex,
            Name(name),
            Keyword(b"protect"),
            Number(u64::from(ceiling.get())),
        ]),
    }
}

fn recursive_mutex_line(name: &[u8], protocol: Protocol) -> LineText
    requires { length name.now ≤ 32 }
    ensures { result.items
        ≡ line_text (codes "mutex" ∷ name.now ∷ (protocol_words protocol ++ flag_words (codes "recursive") true)) }
{
    let mutex = Keyword(b"mutex");
    let recursive = Keyword(b"recursive");
    match protocol {
        Protocol::Plain => line_of(&[mutex, Name(name), Keyword(b"none"), recursive]),
        Protocol::Inherit => line_of(&[mutex, Name(name), Keyword(b"inherit"), recursive]),
        Protocol::Protect(ceiling) => line_of(&[
            mutex,
            Name(name),
            Keyword(b"protect"),
            Number(u64::from(ceiling.get())),
            recursive,
        ]),
    }
}

fn timer_line(name: &[u8], sig: u8, value: u64, real: bool) -> LineText
    requires { length name.now ≤ 32 }
    ensures { result.items ≡ line_text (codes "timer" ∷ name.now ∷ signal_word sig ∷ decimal value ∷ flag_words (codes "real") real) }
{
    let timer = Keyword(b"timer");
    if real {
        line_of(&[
            timer,
            Name(name),
            Signal(sig),
            Number(value),
            Keyword(b"real"),
        ])
    } else {
        line_of(&[timer, Name(name), Signal(sig), Number(value)])
    }
}

fn queue_line(name: &[u8], depth: u32, max_len: u32, nonblock: bool) -> LineText
    requires { length name.now ≤ 32 }
    ensures { result.items
        ≡ line_text (codes "queue" ∷ name.now ∷ decimal depth ∷ decimal max_len ∷ flag_words (codes "nonblock") nonblock) }
{
    let queue = Keyword(b"queue");
    let depth = Number(u64::from(depth));
    let max_len = Number(u64::from(max_len));
    if nonblock {
        line_of(&[queue, Name(name), depth, max_len, Keyword(b"nonblock")])
    } else {
        line_of(&[queue, Name(name), depth, max_len])
    }
}

/// The line of a signal's action.
pub(crate) fn action_line(decls: &[Decl], sig: u8, handler: Option<ObjId>) -> LineText
    ensures { result.items ≡ line_text (action_words decls.now sig handler) }
{
    let action = Keyword(b"action");
    match handler {
        Some(h) => {
            let name = Name(object(decls, NameKind::Handler, h));
            line_of(&[action, Signal(sig), Keyword(b"run"), name])
        }
        None => line_of(&[action, Signal(sig), Keyword(b"ignore")]),
    }
}

/// The first line of a named declaration, or the only one.
pub(crate) fn named_line(name: &[u8], kind: &Kind) -> LineText
    requires { length name.now ≤ 32 }
    ensures { result.items ≡ line_text (named_words name.now kind.now) }
{
    match kind {
        Kind::Thread { policy, start, .. } => thread_line(name, *policy, *start),
        Kind::Handler { .. } => line_of(&[Keyword(b"handler"), Name(name)]),
        Kind::Cleanup { .. } => line_of(&[Keyword(b"cleanup"), Name(name)]),
        Kind::Mutex {
            protocol,
            recursive: true,
        } => recursive_mutex_line(name, *protocol),
        Kind::Mutex {
            protocol,
            recursive: false,
        } => mutex_line(name, *protocol),
        Kind::Cond => line_of(&[Keyword(b"cond"), Name(name)]),
        Kind::Sem { value } => {
            line_of(&[Keyword(b"sem"), Name(name), Number(u64::from(*value))])
        }
        Kind::Queue {
            depth,
            max_len,
            nonblock,
        } => queue_line(name, *depth, *max_len, *nonblock),
        Kind::Timer { sig, value, real } => timer_line(name, *sig, *value, *real),
    }
}

/// The body of a named declaration, where it has one.
pub(crate) fn body_in(kind: &Kind) -> Option<&Body>
    ensures { option_map (λ b. b.now) result ≡ body_in kind.now }
{
    match kind {
        Kind::Thread { body, .. } => Some(body),
        Kind::Handler { body } => Some(body),
        Kind::Cleanup { body } => Some(body),
        _ => None,
    }
}

// Writes the lines of a named declaration.
fn write_named<K: Sink>(
    sink: &mut K,
    decls: &[Decl],
    name: &[u8],
    kind: &Kind,
) -> Result<(), Failed>
    requires { length name.now ≤ 32 }
    ensures { Writes K.text K.faults sink.old sink.new result (text_of (kind_lines decls.now name.now kind.now)) }
{
    let opening = named_line(name, kind);
    match body_in(kind) {
        None => write_line(sink, opening),
        Some(body) => write_block(sink, decls, opening, body, end_line()),
    }
}

/// Writes the lines of a declaration, one write a line, where `decls` are all declarations of the script.
pub(crate) fn write_decl<K: Sink>(sink: &mut K, decls: &[Decl], decl: &Decl) -> Result<(), Failed>
    ensures { Writes K.text K.faults sink.old sink.new result (text_of (decl_lines decls.now decl.now)) }
{
    match decl {
        Decl::Named(name, kind) => write_named(sink, decls, name.bytes(), kind),
        Decl::Action(sig, handler) => write_line(sink, action_line(decls, *sig, *handler)),
    }
}
