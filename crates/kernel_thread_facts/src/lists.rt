//! The lists of runnable threads.
ghost use Rattle.std.specs.Prelude.{◌≡◌, ◌<◌, ◌∷◌, [], IfSome};
ghost use Rattle.rules_lists.specs.Lists.{list_of};
ghost use Rattle.rules_facts.specs.Fact.{on_list};
ghost use Rattle.script_printer.specs.Puts.{Puts};
ghost use Rattle.kernel_texts.specs.Lines.{fact_text};

use kernel_lines::{Declared, thread_name};
use kernel_state::Parts;
use kernel_texts::{put_end, put_more};
use parts_io::Sink;
use script_printer::Printer;
use script_writer::Word::{Keyword, Name, Number};
use words_numbers::{Prio, Tid};

/// The priority of a level.
pub fn prio_of(level: u8) -> Prio
    requires { 0 < level }
    ensures { result ≡ level }
{
    match Prio::try_new(level) {
        Some(p) => p,
        None => unreachable!(),
    }
}

// The thread that stands on the list of this priority alone.
fn only_thread(parts: &Parts, p: Prio) -> Option<Tid>
    ensures { IfSome result (λ t. list_of p parts.now.machine.lists ≡ t ∷ []) }
{
    match parts.thread_on_list(p, 0) {
        None => None,
        Some(head) => match parts.thread_on_list(p, 1) {
            None => Some(head),
            Some(_) => None,
        },
    }
}

/// Prints the threads on the list of this priority, the head first.
pub fn put_list<K: Sink>(out: &mut Printer<'_, K>, parts: &Parts, decls: &Declared<'_>, p: Prio)
    ensures { Puts K.text K.faults out.old out.new (fact_text decls.now (on_list p (list_of p parts.now.machine.lists))) }
{
    match only_thread(parts, p) {
        None => put_each(out, parts, decls, p),
        Some(t) => out.line(&[
            Keyword(b"list"),
            Number(u64::from(p.get())),
            Name(thread_name(decls, t)),
        ]),
    }
}

// Prints them one after the other.
fn put_each<K: Sink>(out: &mut Printer<'_, K>, parts: &Parts, decls: &Declared<'_>, p: Prio)
    ensures { Puts K.text K.faults out.old out.new (fact_text decls.now (on_list p (list_of p parts.now.machine.lists))) }
{
    let subject = [Keyword(b"list"), Number(u64::from(p.get()))];
    let mut is_begun = false;
    let mut place = 0;
    while let Some(t) = parts.thread_on_list(p, place) {
        put_more(out, is_begun, &subject, &[Name(thread_name(decls, t))]);
        is_begun = true;
        place += 1;
    }
    put_end(out, is_begun);
}
