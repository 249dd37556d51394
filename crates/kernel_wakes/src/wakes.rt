//! Wakes, and starts.
ghost use Rattle.std.specs.Prelude.{◌<◌};
ghost use Rattle.words_trace.specs.declared.event.Event.TheVariants as event;
ghost use Rattle.words_trace.specs.Text.{IsNamed};
ghost use Rattle.rules_machine.specs.Threads.{thread_at};
ghost use Rattle.rules_machine.specs.Mutexes.{taken_by};
ghost use Rattle.rules_machine.specs.Turns.{changes_mutex, moves, tells, ◌▷◌};
ghost use Rattle.rules_machine.specs.Servers.{activates_if_high};
ghost use Rattle.rules_machine.specs.Waking.{starts, wakes, wakes_telling};
ghost use Rattle.kernel_threads.specs.Unused.{IsUnused};
ghost use Rattle.rules_flat_code.specs.FlatBodies.{flat_bodies};
ghost use Rattle.kernel_state.specs.Kernel.{starts_telling};
ghost use Rattle.kernel_state.specs.Does.{Does};
ghost use Rattle.kernel_state.specs.Callers.{CanBeStarted, CanRise, IsOwner};

use crate::servers::{activate, activate_if_high};
use kernel_state::Parts;
use parts_io::Sink;
use parts_tracer::Tracer;
use rules_machine::call_name;
use words_numbers::{ObjId, Res, SigSet, Tid};
use words_trace::{CallName, Event};

/// A thread that is runnable again becomes the tail of its list, with that line, and is activated where it has the high priority.
pub(crate) fn rise<K: Sink>(p: &mut Parts, e: &Event, t: Tid, out: &mut Tracer<'_, K>)
    requires can { CanRise p.old t }
    requires named { IsNamed p.old.names e.now }
    ensures { Does K.text K.faults (λ s. s ▷ moves t ▷ tells e.now ▷ activates_if_high t) p.old p.new out.old out.new }
{
    p.move_later(t);
    p.tell(e, out);
    activate_if_high(p, t, out);
}

/// The same of a thread whose call returns. For `WAY` see `tell_return` of `kernel_state`.
#[inline(always)]
pub(crate) fn rise_answered<K: Sink, const WAY: usize>(
    p: &mut Parts,
    call: CallName,
    t: Tid,
    res: Res,
    value: u64,
    out: &mut Tracer<'_, K>,
)
    requires { CanRise p.old t }
    ensures { Does K.text K.faults (λ s. s ▷ moves t ▷ tells (event.Return t call res value) ▷ activates_if_high t) p.old p.new out.old out.new }
{
    p.move_later(t);
    p.tell_return::<K, WAY>(t, call, res, value, out);
    activate_if_high(p, t, out);
}

/// A blocked thread is runnable again, with its answer.
#[inline(always)]
pub(crate) fn wake_telling<K: Sink>(
    p: &mut Parts,
    e: &Event,
    t: Tid,
    res: Res,
    value: u64,
    out: &mut Tracer<'_, K>,
)
    requires can { CanRise p.old t }
    requires named { IsNamed p.old.names e.now }
    ensures { Does K.text K.faults (wakes_telling e.now t res value) p.old p.new out.old out.new }
{
    p.wake_thread(t, res, value);
    rise(p, e, t, out);
}

/// A blocked thread wakes, and its call returns.
pub fn wake<K: Sink>(p: &mut Parts, t: Tid, res: Res, value: u64, out: &mut Tracer<'_, K>)
    requires { CanRise p.old t }
    ensures { Does K.text K.faults (wakes t res value) p.old p.new out.old out.new }
{
    let call = call_name(&p.thread(t).waiting_call());
    p.wake_thread(t, res, value);
    rise_answered::<K, 1>(p, call, t, res, value, out);
}

/// The mutex goes from its owner to a waiter, which wakes with that answer.
#[inline(always)]
pub fn wake_owner<K: Sink>(
    p: &mut Parts,
    k: ObjId,
    owner: Tid,
    t: Tid,
    res: Res,
    out: &mut Tracer<'_, K>,
)
    requires can { CanRise p.old t }
    requires owner { IsOwner p.old.machine k owner }
    ensures { Does K.text K.faults (λ s. s ▷ changes_mutex k (taken_by t) ▷ wakes t res 0) p.old p.new out.old out.new }
{
    let call = call_name(&p.thread(t).waiting_call());
    p.hand_over(k, owner, t, res, 0);
    rise_answered::<K, 2>(p, call, t, res, 0, out);
}

// A dormant thread is runnable at the beginning of its body.
fn start_telling<K: Sink>(p: &mut Parts, t: Tid, mask: SigSet, out: &mut Tracer<'_, K>)
    requires { CanBeStarted p.old t }
    ensures does { Does K.text K.faults (starts_telling (flat_bodies p.old.code) t mask) p.old p.new out.old out.new }
    ensures unused { IsUnused (thread_at p.new.machine t).server }
{
    p.start_thread(t, mask);
    p.move_later(t);
    p.tell(&Event::Start(t), out);
}

/// A dormant thread starts.
pub fn start<K: Sink>(p: &mut Parts, t: Tid, mask: SigSet, out: &mut Tracer<'_, K>)
    requires { CanBeStarted p.old t }
    ensures { Does K.text K.faults (starts (flat_bodies p.old.code) t mask) p.old p.new out.old out.new }
{
    start_telling(p, t, mask, out);
    activate(p, t, out);
}
