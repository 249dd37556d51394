//! The line of a call.
mod conditions;
mod operands;
mod queues;
mod signals;
mod threads;
mod timers;

ghost use Rattle.std.specs.Prelude.{◌≡◌, false};
ghost use Rattle.script_writer.specs.Line.{line_text};
ghost use Rattle.script_writer.specs.Canon.{call_words};
ghost use Rattle.script_writer.specs.Subjects.{is_of_threads, is_of_objects, is_of_time};

use crate::line::LineText;
use conditions::{timedwait, wait};
use operands::{
    bare, on_object, on_object_until, on_thread, two_keywords, with_moment, with_number,
    with_operand,
};
use queues::{mq_notify, mq_send, mq_timedsend};
use signals::{kill, sigmask, sigqueue, sigtimedwait, sigwaitinfo, tkill};
use threads::{setprio, setsched};
use timers::{settime_abs, settime_rel};
use words_script::{Call, Decl, NameKind};

/// The line of a call.
pub(crate) fn call_line(decls: &[Decl], call: &Call) -> LineText
    ensures { result.items ≡ line_text (call_words decls.now call.now) }
{
    match call {
        Call::Yield => bare(b"yield"),
        Call::Create(t) => on_thread(decls, b"create", *t),
        Call::Join(t) => on_thread(decls, b"join", *t),
        Call::Cancel(t) => on_thread(decls, b"cancel", *t),
        Call::Testcancel => bare(b"testcancel"),
        Call::Setcancel(true) => two_keywords(b"setcancel", b"enable"),
        Call::Setcancel(false) => two_keywords(b"setcancel", b"disable"),
        Call::Push(u) => on_object(decls, b"push", NameKind::Cleanup, *u),
        Call::Pop(true) => two_keywords(b"pop", b"1"),
        Call::Pop(false) => two_keywords(b"pop", b"0"),
        Call::Exit(value) => with_operand(b"exit", *value),
        Call::Setprio(t, prio) => setprio(decls, *t, *prio),
        Call::Setsched(t, policy) => setsched(decls, *t, *policy),
        _ => object_call_line(decls, call),
    }
}

// The line of a call that is on no thread.
fn object_call_line(decls: &[Decl], call: &Call) -> LineText
    requires { is_of_threads call.now ≡ false }
    ensures { result.items ≡ line_text (call_words decls.now call.now) }
{
    match call {
        Call::Lock(m) => on_object(decls, b"lock", NameKind::Mutex, *m),
        Call::Timedlock { mutex, at } => {
            on_object_until(decls, b"timedlock", NameKind::Mutex, *mutex, *at)
        }
        Call::Trylock(m) => on_object(decls, b"trylock", NameKind::Mutex, *m),
        Call::Unlock(m) => on_object(decls, b"unlock", NameKind::Mutex, *m),
        Call::Wait(cond, mutex) => wait(decls, *cond, *mutex),
        Call::Timedwait { cond, mutex, at } => timedwait(decls, *cond, *mutex, *at),
        Call::Signal(c) => on_object(decls, b"signal", NameKind::Cond, *c),
        Call::Broadcast(c) => on_object(decls, b"broadcast", NameKind::Cond, *c),
        Call::SemWait(s) => on_object(decls, b"sem_wait", NameKind::Sem, *s),
        Call::SemTimedwait { sem, at } => {
            on_object_until(decls, b"sem_timedwait", NameKind::Sem, *sem, *at)
        }
        Call::SemTrywait(s) => on_object(decls, b"sem_trywait", NameKind::Sem, *s),
        Call::SemGetvalue(s) => on_object(decls, b"sem_getvalue", NameKind::Sem, *s),
        Call::SemPost(s) => on_object(decls, b"sem_post", NameKind::Sem, *s),
        _ => time_call_line(decls, call),
    }
}

// The line of a call on time, or on signals and messages.
fn time_call_line(decls: &[Decl], call: &Call) -> LineText
    requires threads { is_of_threads call.now ≡ false }
    requires objects { is_of_objects call.now ≡ false }
    ensures { result.items ≡ line_text (call_words decls.now call.now) }
{
    match call {
        Call::Nanosleep(ticks) => with_number(b"nanosleep", *ticks),
        Call::ClockNanosleep { at } => with_moment(b"clock_nanosleep", *at),
        Call::Gettime => bare(b"gettime"),
        Call::RealGettime => bare(b"real_gettime"),
        Call::ClockSettime(at) => with_operand(b"clock_settime", *at),
        Call::TimerSettimeRel(k, first, interval) => settime_rel(decls, *k, *first, *interval),
        Call::TimerSettimeAbs(k, at, interval) => settime_abs(decls, *k, *at, *interval),
        Call::TimerGettime(k) => on_object(decls, b"timer_gettime", NameKind::Timer, *k),
        Call::TimerGetoverrun(k) => on_object(decls, b"timer_getoverrun", NameKind::Timer, *k),
        _ => signal_call_line(decls, call),
    }
}

// The line of a call on signals, or on messages.
fn signal_call_line(decls: &[Decl], call: &Call) -> LineText
    requires threads { is_of_threads call.now ≡ false }
    requires objects { is_of_objects call.now ≡ false }
    requires time { is_of_time call.now ≡ false }
    ensures { result.items ≡ line_text (call_words decls.now call.now) }
{
    match call {
        Call::Kill(sig) => kill(*sig),
        Call::Tkill(t, sig) => tkill(decls, *t, *sig),
        Call::Sigqueue(sig, value) => sigqueue(*sig, *value),
        Call::SigmaskBlock(set) => sigmask(b"block", *set),
        Call::SigmaskUnblock(set) => sigmask(b"unblock", *set),
        Call::SigmaskSet(set) => sigmask(b"set", *set),
        Call::Sigwaitinfo(set) => sigwaitinfo(*set),
        Call::Sigtimedwait(set, ticks) => sigtimedwait(*set, *ticks),
        Call::MqSend(q, len, prio, value) => mq_send(decls, *q, *len, *prio, *value),
        Call::MqTimedsend {
            queue,
            len,
            prio,
            value,
            at,
        } => mq_timedsend(decls, *queue, *len, *prio, *value, *at),
        Call::MqReceive(q) => on_object(decls, b"mq_receive", NameKind::Queue, *q),
        Call::MqTimedreceive { queue, at } => {
            on_object_until(decls, b"mq_timedreceive", NameKind::Queue, *queue, *at)
        }
        Call::MqNotify(q, sig, value) => mq_notify(decls, *q, *sig, *value),
        _ => unreachable!(),
    }
}
