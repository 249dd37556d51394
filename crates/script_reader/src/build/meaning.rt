//! What a line declares, and which step it is.
ghost use Rattle.std.specs.Prelude.{◌≡◌, Some};
ghost use Rattle.std.specs.Option.{option_map};
ghost use Rattle.words_script.specs.declared.decl.Kind.TheVariants as kinds;
ghost use Rattle.script_table.specs.Operands.{number_in, amount_at, signal_at};
ghost use Rattle.script_table.specs.Meaning.{protect, queue, timer, kind_of_object, object_decl, action_decl, thread_at, thread_dormant, kind_of_body, body_decl, plain_step, runs_cleanup, test, repeat, guard, block_step};

use crate::names::NameIndex;
use crate::operands::{
    amount, answer, fifo, first_number, name, number_in, object, priority, rr, signal, sporadic,
    strict,
};
use crate::structure::statement::LineWords;
use crate::{Body, Decl, Kind, Policy, Protocol, Step};
use script_table::{ActionForm, BlockForm, BodyForm, CloseForm, NameKind, ObjectForm, StepForm};
use words_numbers::{GREATEST_NUMBER, ObjId, Prio, Res};

fn mutex(protocol: Protocol, recursive: bool) -> Option<Kind>
    ensures { result ≡ Some (kinds.Mutex protocol recursive) }
{
    Some(Kind::Mutex {
        protocol,
        recursive,
    })
}

fn protect(recursive: bool, ceiling: Option<Prio>) -> Option<Kind>
    ensures { result ≡ protect recursive ceiling }
{
    match ceiling {
        None => None,
        Some(ceiling) => mutex(Protocol::Protect(ceiling), recursive),
    }
}

fn semaphore(words: &LineWords<'_>) -> Option<Kind>
    ensures { result ≡ option_map kinds.Sem (number_in 0 32767 2 words.now) }
{
    match number_in(0, 32_767, 2, words) {
        None => None,
        Some(value) => Some(Kind::Sem {
            value: value as u32,
        }),
    }
}

fn queue(nonblock: bool, words: &LineWords<'_>) -> Option<Kind>
    ensures { result ≡ queue nonblock (number_in 1 64 2 words.now) (number_in 1 65536 3 words.now) }
{
    let depth = number_in(1, 64, 2, words)?;
    let max_len = number_in(1, 65_536, 3, words)?;
    Some(Kind::Queue {
        depth: depth as u32,
        max_len: max_len as u32,
        nonblock,
    })
}

fn timer(real: bool, words: &LineWords<'_>) -> Option<Kind>
    ensures { result ≡ timer real (signal_at 2 words.now) (amount_at 3 words.now) }
{
    let sig = signal(2, words)?;
    let value = amount(3, words)?;
    Some(Kind::Timer { sig, value, real })
}

fn kind_of_object(form: ObjectForm, words: &LineWords<'_>) -> Option<Kind>
    ensures { result ≡ kind_of_object form words.now }
{
    match form {
        ObjectForm::MutexNone => mutex(Protocol::Plain, false),
        ObjectForm::MutexNoneRecursive => mutex(Protocol::Plain, true),
        ObjectForm::MutexInherit => mutex(Protocol::Inherit, false),
        ObjectForm::MutexInheritRecursive => mutex(Protocol::Inherit, true),
        ObjectForm::MutexProtect => protect(false, priority(3, words)),
        ObjectForm::MutexProtectRecursive => protect(true, priority(3, words)),
        ObjectForm::Cond => Some(Kind::Cond),
        ObjectForm::Sem => semaphore(words),
        ObjectForm::Queue => queue(false, words),
        ObjectForm::QueueNonblock => queue(true, words),
        ObjectForm::Timer => timer(false, words),
        ObjectForm::TimerReal => timer(true, words),
    }
}

pub(crate) fn object_decl(form: ObjectForm, words: &LineWords<'_>) -> Option<Decl>
    ensures { result ≡ object_decl form words.now }
{
    let name = name(1, words)?;
    Some(Decl::Named(name, kind_of_object(form, words)?))
}

pub(crate) fn action_decl(
    names: &NameIndex<'_>,
    form: ActionForm,
    words: &LineWords<'_>,
) -> Option<Decl>
    ensures { result ≡ action_decl names.now form words.now }
{
    let sig = signal(1, words)?;
    Some(match form {
        ActionForm::Ignore => Decl::Action(sig, None),
        ActionForm::Run => Decl::Action(sig, Some(object(NameKind::Handler, names, 3, words)?)),
    })
}

fn thread_at(policy: Option<Policy>, start: Option<u64>, body: Body) -> Option<Kind>
    ensures { result ≡ thread_at policy start body }
{
    match (policy, start) {
        (Some(policy), Some(_)) => Some(Kind::Thread {
            policy,
            start,
            body,
        }),
        _ => None,
    }
}

fn thread_dormant(policy: Option<Policy>, body: Body) -> Option<Kind>
    ensures { result ≡ thread_dormant policy body }
{
    match policy {
        None => None,
        Some(policy) => Some(Kind::Thread {
            policy,
            start: None,
            body,
        }),
    }
}

fn kind_of_body(form: BodyForm, words: &LineWords<'_>, body: Body) -> Option<Kind>
    ensures { result ≡ kind_of_body form words.now body }
{
    match form {
        BodyForm::FifoAt => thread_at(fifo(3, words), amount(5, words), body),
        BodyForm::FifoDormant => thread_dormant(fifo(3, words), body),
        BodyForm::RrAt => thread_at(rr(3, words), amount(5, words), body),
        BodyForm::RrDormant => thread_dormant(rr(3, words), body),
        BodyForm::SporadicAt => thread_at(sporadic(words), amount(9, words), body),
        BodyForm::SporadicDormant => thread_dormant(sporadic(words), body),
        BodyForm::StrictAt => thread_at(strict(words), amount(9, words), body),
        BodyForm::StrictDormant => thread_dormant(strict(words), body),
        BodyForm::Handler => Some(Kind::Handler { body }),
        BodyForm::Cleanup => Some(Kind::Cleanup { body }),
    }
}

pub(crate) fn body_decl(form: BodyForm, words: &LineWords<'_>, body: Body) -> Option<Decl>
    ensures { result ≡ body_decl form words.now body }
{
    let name = name(1, words)?;
    Some(Decl::Named(name, kind_of_body(form, words, body)?))
}

pub(crate) fn plain_step(form: StepForm, words: &LineWords<'_>) -> Option<Step>
    ensures { result ≡ plain_step form words.now }
{
    Some(match form {
        StepForm::Run => Step::Run(first_number(1, GREATEST_NUMBER, words)?),
        StepForm::Set => Step::Set(first_number(0, GREATEST_NUMBER, words)?),
        StepForm::Add => Step::Add(first_number(0, GREATEST_NUMBER, words)?),
        StepForm::Take => Step::Take,
    })
}

pub(crate) fn runs_cleanup(form: CloseForm) -> bool
    ensures { result ≡ runs_cleanup form }
{
    match form {
        CloseForm::PopRun => true,
        _ => false,
    }
}

fn test(res: Option<Res>, equal: bool, body: Body) -> Option<Step>
    ensures { result ≡ test equal body res }
{
    match res {
        None => None,
        Some(res) => Some(Step::Test { res, equal, body }),
    }
}

fn repeat(times: Option<u64>, body: Body) -> Option<Step>
    ensures { result ≡ repeat body times }
{
    match times {
        None => None,
        Some(_) => Some(Step::Loop { times, body }),
    }
}

fn guard(cleanup: Option<ObjId>, body: Body, run: bool) -> Option<Step>
    ensures { result ≡ guard run body cleanup }
{
    match cleanup {
        None => None,
        Some(cleanup) => Some(Step::Guard { cleanup, body, run }),
    }
}

pub(crate) fn block_step(
    names: &NameIndex<'_>,
    form: BlockForm,
    words: &LineWords<'_>,
    run: bool,
    body: Body,
) -> Option<Step>
    ensures { result ≡ block_step names.now form words.now run body }
{
    match form {
        BlockForm::If => test(answer(1, words), true, body),
        BlockForm::Unless => test(answer(1, words), false, body),
        BlockForm::Loop => repeat(number_in(1, GREATEST_NUMBER, 1, words), body),
        BlockForm::Forever => Some(Step::Loop { times: None, body }),
        BlockForm::Push => guard(object(NameKind::Cleanup, names, 1, words), body, run),
    }
}
