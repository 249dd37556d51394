//! A thread takes a signal, or accepts one that it waits for.
ghost use Rattle.std.specs.Prelude.{◌≡◌, ◌<◌, length, true};
ghost use Rattle.words_numbers.specs.declared.res.Res.TheVariants as res;
ghost use Rattle.rules_machine.specs.Signals.{delivers, is_ignore};
ghost use Rattle.rules_machine.specs.Threads.{action_of, is_blocked, thread_at};
ghost use Rattle.rules_machine.specs.Turns.{◌▷◌};
ghost use Rattle.rules_machine.specs.Waking.{wakes};
ghost use Rattle.kernel_state.specs.Callers.{CanWake};
ghost use Rattle.kernel_state.specs.Does.{Does};

use kernel_signals::SignalRecord;
use kernel_state::Parts;
use kernel_wakes::wake;
use parts_io::Sink;
use parts_tracer::Tracer;
use rules_machine::SigAction;
use words_numbers::{Res, Tid};
use words_trace::Event;

/// The thread takes the record, by a handler or by a wait.
pub fn deliver<K: Sink>(p: &mut Parts, t: Tid, r: &SignalRecord, out: &mut Tracer<'_, K>)
    requires { t < length p.old.names }
    ensures { Does K.text K.faults (delivers t r.now) p.old p.new out.old out.new }
{
    p.tell(&Event::Deliver(t, r.signal(), r.code(), r.value()), out);
    p.tell_overrun(&r.timer());
}

/// A thread that waits for the signal accepts it.
#[tactic(auto, using(crate::proofs::Delivered::delivered_unused, crate::proofs::Delivered::delivered_room, crate::proofs::Delivered::delivered_now))]
pub fn accept<K: Sink>(p: &mut Parts, w: Tid, r: &SignalRecord, out: &mut Tracer<'_, K>)
    requires known { w < length p.old.names }
    requires can { CanWake p.old }
    requires blocked { is_blocked (thread_at p.old.machine w).status ≡ true }
    ensures { Does K.text K.faults (λ s. s ▷ delivers w r.now ▷ wakes w res.Zero r.now.signal) p.old p.new out.old out.new }
{
    deliver(p, w, r, out);
    wake(p, w, Res::Zero, r.signal() as u64, out);
}

// Whether an action is to ignore its signal.
fn is_ignore(action: &SigAction) -> bool
    ensures { result ≡ is_ignore action.now }
{
    match action {
        SigAction::Ignore => true,
        _ => false,
    }
}

/// Whether the record's signal is ignored.
pub fn is_ignored(p: &Parts, r: &SignalRecord) -> bool
    requires { r.now.signal < 32 }
    ensures { result ≡ is_ignore (action_of p.now.machine r.now.signal) }
{
    is_ignore(&p.action(r.signal()))
}
