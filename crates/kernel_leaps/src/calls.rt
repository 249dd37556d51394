//! Calls that have a function of their own, so that the loop of leaps needs no room for what they use.
ghost use Rattle.script_code.specs.Fetched.{call_of};
ghost use Rattle.script_code.specs.ShortCall.{call_of_short};
ghost use Rattle.words_script.specs.declared.call.Call.TheVariants as call;
ghost use Rattle.rules_machine.specs.Calls.{makes_call};
ghost use Rattle.rules_flat_code.specs.FlatBodies.{flat_bodies};
ghost use Rattle.kernel_wakes.specs.Calls.{CanMakeCall};
ghost use Rattle.kernel_state.specs.Kernel.{by};
ghost use Rattle.kernel_state.specs.Does.{Does};

use calls_table::{
    make_call, make_queue_call, make_scheduling_call, make_signal_call, make_sync_call,
    make_thread_call,
};
use kernel_state::Parts;
use parts_io::Sink;
use parts_tracer::Tracer;
use script_code::{CallPlace, ShortCall};
use words_numbers::{ObjId, Prio, SigSet, Tid};
use words_script::{Call, Operand};

/// The call that stands at a place. Where it stands in the table of its body, one of those that are made most often there has a function of
/// its own, and is not copied; any other is copied once, as it is.
#[inline(never)]
pub(crate) fn make_any<K: Sink>(p: &mut Parts, t: Tid, place: CallPlace, out: &mut Tracer<'_, K>)
    requires { CanMakeCall p.old t (call_of p.old.code place) }
    ensures { Does K.text K.faults (makes_call (flat_bodies p.old.code) (by t (call_of p.old.code place))) p.old p.new out.old out.new }
{
    let Some(kept) = p.call_in_table(&place) else {
        return make_any_in_full(p, t, place, out);
    };
    match *kept {
        Call::Create(u) => make_create(p, t, u, out),
        Call::Join(u) => make_join(p, t, u, out),
        Call::Cancel(u) => make_cancel(p, t, u, out),
        Call::Setprio(u, prio) => make_setprio(p, t, u, prio, out),
        Call::Kill(signal) => make_kill(p, t, signal, out),
        Call::SemWait(k) => make_sem_wait(p, t, k, out),
        Call::Wait(c, k) => make_wait(p, t, c, k, out),
        Call::Signal(c) => make_signal(p, t, c, out),
        Call::Sigwaitinfo(set) => make_sigwaitinfo(p, t, set, out),
        Call::MqSend(q, len, prio, v) => make_send(p, t, q, len, prio, v, out),
        Call::MqReceive(q) => make_receive(p, t, q, out),
        _ => {
            let call = *kept;
            make_kept(p, t, &call, out)
        }
    }
}

// The same, wherever it is kept.
#[inline(never)]
fn make_any_in_full<K: Sink>(p: &mut Parts, t: Tid, place: CallPlace, out: &mut Tracer<'_, K>)
    requires { CanMakeCall p.old t (call_of p.old.code place) }
    ensures { Does K.text K.faults (makes_call (flat_bodies p.old.code) (by t (call_of p.old.code place))) p.old p.new out.old out.new }
{
    let call = p.call(&place);
    make_kept(p, t, &call, out);
}

// A call that was copied.
#[inline(never)]
fn make_kept<K: Sink>(p: &mut Parts, t: Tid, call: &Call, out: &mut Tracer<'_, K>)
    requires { CanMakeCall p.old t call.now }
    ensures { Does K.text K.faults (makes_call (flat_bodies p.old.code) (by t call.now)) p.old p.new out.old out.new }
{
    make_call(p, t, call, out);
}

/// A short call. For `COMMAND` see `leap_thread`.
#[inline(always)]
pub(crate) fn make_short<K: Sink, const COMMAND: usize>(
    p: &mut Parts,
    t: Tid,
    short: ShortCall,
    out: &mut Tracer<'_, K>,
)
    requires { CanMakeCall p.old t (call_of_short short) }
    ensures { Does K.text K.faults (makes_call (flat_bodies p.old.code) (by t (call_of_short short))) p.old p.new out.old out.new }
{
    match short {
        ShortCall::Yield => make_scheduling_call(p, t, &Call::Yield, out),
        ShortCall::Lock(k) => make_lock(p, t, k, out),
        ShortCall::Unlock(k) => make_sync_call(p, t, &Call::Unlock(k), out),
        ShortCall::Post(k) => make_sync_call(p, t, &Call::SemPost(k), out),
        ShortCall::Sleep(n) => make_sleep(p, t, u64::from(n), out),
    }
}

// `pthread_mutex_lock`.
#[inline(never)]
fn make_lock<K: Sink>(p: &mut Parts, t: Tid, k: ObjId, out: &mut Tracer<'_, K>)
    requires { CanMakeCall p.old t (call.Lock k) }
    ensures { Does K.text K.faults (makes_call (flat_bodies p.old.code) (by t (call.Lock k))) p.old p.new out.old out.new }
{
    make_sync_call(p, t, &Call::Lock(k), out);
}

// `nanosleep`.
#[inline(never)]
fn make_sleep<K: Sink>(p: &mut Parts, t: Tid, n: u64, out: &mut Tracer<'_, K>)
    requires { CanMakeCall p.old t (call.Nanosleep n) }
    ensures { Does K.text K.faults (makes_call (flat_bodies p.old.code) (by t (call.Nanosleep n))) p.old p.new out.old out.new }
{
    make_scheduling_call(p, t, &Call::Nanosleep(n), out);
}

// `pthread_create`.
#[inline(never)]
fn make_create<K: Sink>(p: &mut Parts, t: Tid, u: Tid, out: &mut Tracer<'_, K>)
    requires { CanMakeCall p.old t (call.Create u) }
    ensures { Does K.text K.faults (makes_call (flat_bodies p.old.code) (by t (call.Create u))) p.old p.new out.old out.new }
{
    make_scheduling_call(p, t, &Call::Create(u), out);
}

// `pthread_join`.
#[inline(never)]
fn make_join<K: Sink>(p: &mut Parts, t: Tid, u: Tid, out: &mut Tracer<'_, K>)
    requires { CanMakeCall p.old t (call.Join u) }
    ensures { Does K.text K.faults (makes_call (flat_bodies p.old.code) (by t (call.Join u))) p.old p.new out.old out.new }
{
    make_thread_call(p, t, &Call::Join(u), out);
}

// `pthread_cancel`.
#[inline(never)]
fn make_cancel<K: Sink>(p: &mut Parts, t: Tid, u: Tid, out: &mut Tracer<'_, K>)
    requires { CanMakeCall p.old t (call.Cancel u) }
    ensures { Does K.text K.faults (makes_call (flat_bodies p.old.code) (by t (call.Cancel u))) p.old p.new out.old out.new }
{
    make_thread_call(p, t, &Call::Cancel(u), out);
}

// `pthread_setschedprio`.
#[inline(never)]
fn make_setprio<K: Sink>(p: &mut Parts, t: Tid, u: Tid, prio: Prio, out: &mut Tracer<'_, K>)
    requires { CanMakeCall p.old t (call.Setprio u prio) }
    ensures { Does K.text K.faults (makes_call (flat_bodies p.old.code) (by t (call.Setprio u prio))) p.old p.new out.old out.new }
{
    make_scheduling_call(p, t, &Call::Setprio(u, prio), out);
}

// `kill`.
#[inline(never)]
fn make_kill<K: Sink>(p: &mut Parts, t: Tid, signal: u8, out: &mut Tracer<'_, K>)
    requires { CanMakeCall p.old t (call.Kill signal) }
    ensures { Does K.text K.faults (makes_call (flat_bodies p.old.code) (by t (call.Kill signal))) p.old p.new out.old out.new }
{
    make_signal_call(p, t, &Call::Kill(signal), out);
}

// `sem_wait`.
#[inline(never)]
fn make_sem_wait<K: Sink>(p: &mut Parts, t: Tid, k: ObjId, out: &mut Tracer<'_, K>)
    requires { CanMakeCall p.old t (call.SemWait k) }
    ensures { Does K.text K.faults (makes_call (flat_bodies p.old.code) (by t (call.SemWait k))) p.old p.new out.old out.new }
{
    make_sync_call(p, t, &Call::SemWait(k), out);
}

// `pthread_cond_wait`.
#[inline(never)]
fn make_wait<K: Sink>(p: &mut Parts, t: Tid, c: ObjId, k: ObjId, out: &mut Tracer<'_, K>)
    requires { CanMakeCall p.old t (call.Wait c k) }
    ensures { Does K.text K.faults (makes_call (flat_bodies p.old.code) (by t (call.Wait c k))) p.old p.new out.old out.new }
{
    make_sync_call(p, t, &Call::Wait(c, k), out);
}

// `pthread_cond_signal`.
#[inline(never)]
fn make_signal<K: Sink>(p: &mut Parts, t: Tid, c: ObjId, out: &mut Tracer<'_, K>)
    requires { CanMakeCall p.old t (call.Signal c) }
    ensures { Does K.text K.faults (makes_call (flat_bodies p.old.code) (by t (call.Signal c))) p.old p.new out.old out.new }
{
    make_sync_call(p, t, &Call::Signal(c), out);
}

// `sigwaitinfo`.
#[inline(never)]
fn make_sigwaitinfo<K: Sink>(p: &mut Parts, t: Tid, set: SigSet, out: &mut Tracer<'_, K>)
    requires { CanMakeCall p.old t (call.Sigwaitinfo set) }
    ensures { Does K.text K.faults (makes_call (flat_bodies p.old.code) (by t (call.Sigwaitinfo set))) p.old p.new out.old out.new }
{
    make_signal_call(p, t, &Call::Sigwaitinfo(set), out);
}

// `mq_send`.
#[inline(never)]
fn make_send<K: Sink>(
    p: &mut Parts,
    t: Tid,
    q: ObjId,
    len: u32,
    prio: u8,
    v: Operand,
    out: &mut Tracer<'_, K>,
)
    requires { CanMakeCall p.old t (call.MqSend q len prio v) }
    ensures { Does K.text K.faults (makes_call (flat_bodies p.old.code) (by t (call.MqSend q len prio v))) p.old p.new out.old out.new }
{
    make_queue_call(p, t, &Call::MqSend(q, len, prio, v), out);
}

// `mq_receive`.
#[inline(never)]
fn make_receive<K: Sink>(p: &mut Parts, t: Tid, q: ObjId, out: &mut Tracer<'_, K>)
    requires { CanMakeCall p.old t (call.MqReceive q) }
    ensures { Does K.text K.faults (makes_call (flat_bodies p.old.code) (by t (call.MqReceive q))) p.old p.new out.old out.new }
{
    make_queue_call(p, t, &Call::MqReceive(q), out);
}
