//! Requests to end that act.
ghost use Rattle.std.specs.Prelude.{◌<◌, length};
ghost use Rattle.rules_machine.specs.Cancellation.{is_cancelled};
ghost use Rattle.rules_machine.specs.Mutexes.{taken_by};
ghost use Rattle.rules_machine.specs.Turns.{changes_mutex, ◌▷◌};
ghost use Rattle.rules_machine.specs.Waking.{wakes_cancelled};
ghost use Rattle.kernel_state.specs.Does.{Does};
ghost use Rattle.kernel_state.specs.Callers.{CanRise, IsOwner};

use crate::wakes::{rise, wake_telling};
use kernel_state::Parts;
use parts_io::Sink;
use parts_tracer::Tracer;
use words_numbers::{ObjId, Tid};
use words_trace::Event;

/// The value of a cancelled thread, as `PTHREAD_CANCELED`.
const CANCELLED_VALUE: u64 = 3_000_000_000_000_000_000;

/// A request acts in a thread that waits; it wakes, and since its call does not return, the answer of its last call stays.
pub fn wake_cancelled<K: Sink>(p: &mut Parts, t: Tid, out: &mut Tracer<'_, K>)
    requires { CanRise p.old t }
    ensures { Does K.text K.faults (wakes_cancelled t) p.old p.new out.old out.new }
{
    let thread = p.thread(t);
    let (res, value) = (thread.last_result(), thread.last_value());
    wake_telling(p, &Event::Cancel(t), t, res, value, out);
    p.begin_end(t, CANCELLED_VALUE);
}

/// The mutex goes from its owner to a waiter whose condition wait was cancelled; the request acts.
#[inline(never)]
pub fn wake_cancelled_owner<K: Sink>(
    p: &mut Parts,
    k: ObjId,
    owner: Tid,
    t: Tid,
    out: &mut Tracer<'_, K>,
)
    requires can { CanRise p.old t }
    requires owner { IsOwner p.old.machine k owner }
    ensures { Does K.text K.faults (λ s. s ▷ changes_mutex k (taken_by t) ▷ wakes_cancelled t) p.old p.new out.old out.new }
{
    let thread = p.thread(t);
    let (res, value) = (thread.last_result(), thread.last_value());
    p.hand_over(k, owner, t, res, value);
    rise(p, &Event::Cancel(t), t, out);
    p.begin_end(t, CANCELLED_VALUE);
}

/// A request acts in place of a call.
pub fn cancel_now<K: Sink>(p: &mut Parts, t: Tid, out: &mut Tracer<'_, K>)
    requires { t < length p.old.names }
    ensures { Does K.text K.faults (is_cancelled t) p.old p.new out.old out.new }
{
    p.tell(&Event::Cancel(t), out);
    p.begin_end(t, CANCELLED_VALUE);
}
