//! Lines of calls on a thread's priority and policy.
ghost use Rattle.std.specs.Prelude.{◌≡◌, ◌≤◌, ◌∷◌, [], codes, decimal, length};
ghost use Rattle.script_writer.specs.Line.{line_text};
ghost use Rattle.script_writer.specs.Names.{name_of};
ghost use Rattle.script_writer.specs.Canon.{policy_words};
ghost use Rattle.words_script.specs.declared.name_kind.NameKind.TheVariants as name_kind;

use crate::line::Word::{Keyword, Name, Number};
use crate::line::{LineText, line_of};
use crate::names::thread;
use words_numbers::{Params, Prio, Tid};
use words_script::{Decl, Policy};

pub(super) fn setprio(decls: &[Decl], t: Tid, prio: Prio) -> LineText
    ensures { result.items ≡ line_text (codes "setprio" ∷ name_of decls.now name_kind.Thread t ∷ decimal prio ∷ []) }
{
    let level = Number(u64::from(prio.get()));
    line_of(&[Keyword(b"setprio"), Name(thread(decls, t)), level])
}

// `setsched` to SCHED_FIFO or SCHED_RR.
fn to_level<'a>(decls: &'a [Decl], t: Tid, policy: &'a [u8], prio: Prio) -> LineText
    requires { length policy.now ≤ 16 }
    ensures { result.items ≡ line_text (codes "setsched" ∷ name_of decls.now name_kind.Thread t ∷ policy.now ∷ decimal prio ∷ []) }
{
    let level = Number(u64::from(prio.get()));
    line_of(&[
        Keyword(b"setsched"),
        Name(thread(decls, t)),
        Keyword(policy),
        level,
    ])
}

// `setsched` to a server, by the word of the server's kind.
fn to_server<'a>(decls: &'a [Decl], t: Tid, kind: &'a [u8], params: Params) -> LineText
    requires { length kind.now ≤ 16 }
    ensures { result.items ≡ line_text (codes "setsched" ∷ name_of decls.now name_kind.Thread t ∷ kind.now ∷ decimal params.high
        ∷ decimal params.low ∷ decimal params.period ∷ decimal params.budget ∷ decimal params.max ∷ []) }
{
    line_of(&[
        Keyword(b"setsched"),
        Name(thread(decls, t)),
        Keyword(kind),
        Number(u64::from(params.high.get())),
        Number(u64::from(params.low.get())),
        Number(params.period),
        Number(params.budget),
        Number(u64::from(params.max)),
    ])
}

// `setsched` with the parameters of its policy.
pub(super) fn setsched(decls: &[Decl], t: Tid, policy: Policy) -> LineText
    ensures { result.items ≡ line_text (codes "setsched" ∷ name_of decls.now name_kind.Thread t ∷ policy_words policy) }
{
    match policy {
        Policy::Fifo(prio) => to_level(decls, t, b"fifo", prio),
        Policy::Rr(prio) => to_level(decls, t, b"rr", prio),
        Policy::Sporadic(params) => to_server(decls, t, b"sporadic", params),
        Policy::Strict(params) => to_server(decls, t, b"strict", params),
    }
}
