//! What a signal that the sweep takes does to its thread.
ghost use Rattle.std.specs.Prelude.{◌≤◌, ◌<◌, Contains, length};
ghost use Rattle.rules_machine.specs.Delivery.{acts, catches, interrupts};
ghost use Rattle.rules_machine.specs.Signals.{delivers, without_record};
ghost use Rattle.rules_machine.specs.Threads.{action_of, thread_at, waiting_of};
ghost use Rattle.rules_machine.specs.Turns.{changes_pending, ◌▷◌};
ghost use Rattle.rules_flat_code.specs.FlatBodies.{flat_bodies};
ghost use Rattle.kernel_state.specs.Caught.{AreCaught, CatchesBy};
ghost use Rattle.kernel_state.specs.Does.{Does};
ghost use Rattle.calls_items.specs.Premises.{CanInterrupt};

use calls_generation::deliver;
use kernel_signals::SignalRecord;
use kernel_state::Parts;
use kernel_wakes::wake;
use parts_io::Sink;
use parts_tracer::Tracer;
use rules_machine::SigAction;
use words_numbers::{ObjId, Res, Tid};

// A blocked thread wakes.
#[tactic(auto, using(crate::proofs::Interrupted::not_interrupted, crate::proofs::Interrupted::as_interrupted, crate::proofs::Interrupted::told_not_interrupted, crate::proofs::Interrupted::told_interrupted, crate::proofs::Interrupted::interrupted_blocked))]
fn interrupt<K: Sink>(p: &mut Parts, t: Tid, out: &mut Tracer<'_, K>)
    requires { CanInterrupt p.old t }
    ensures { Does K.text K.faults (λ s. interrupts (waiting_of s.machine t) t s) p.old p.new out.old out.new }
{
    match p.thread(t).interrupted(p.instant()) {
        None => return,
        Some(left) => wake(p, t, Res::Intr, left, out),
    }
}

// It wakes, and takes the record.
fn interrupt_by<K: Sink>(p: &mut Parts, t: Tid, r: &SignalRecord, out: &mut Tracer<'_, K>)
    requires can { CanInterrupt p.old t }
    requires pending { Contains p.old.machine.pending r.now }
    ensures { Does K.text K.faults (λ s. s ▷ changes_pending (without_record r.now) ▷ interrupts (waiting_of s.machine t) t ▷ delivers t r.now) p.old p.new out.old out.new }
{
    p.take_record(r);
    interrupt(p, t, out);
    deliver(p, t, r, out);
}

// The handler begins in a frame of its own.
fn run_handler<K: Sink>(p: &mut Parts, h: ObjId, t: Tid, r: &SignalRecord, out: &mut Tracer<'_, K>)
    requires can { CanInterrupt p.old t }
    requires handler { h < length p.old.code.handlers }
    requires pending { Contains p.old.machine.pending r.now }
    requires frames { length (thread_at p.old.machine t).frames ≤ 2 }
    ensures { Does K.text K.faults (catches (flat_bodies p.old.code) h t r.now) p.old p.new out.old out.new }
{
    interrupt_by(p, t, r, out);
    p.catch_signal(t, h, r.value());
}

// An action, for a pending record that a thread takes.
fn act<K: Sink>(p: &mut Parts, action: SigAction, t: Tid, r: &SignalRecord, out: &mut Tracer<'_, K>)
    requires can { CanInterrupt p.old t }
    requires handler { CatchesBy (length p.old.code.handlers) action }
    requires pending { Contains p.old.machine.pending r.now }
    requires frames { length (thread_at p.old.machine t).frames ≤ 2 }
    ensures { Does K.text K.faults (acts (flat_bodies p.old.code) action t r.now) p.old p.new out.old out.new }
{
    match action {
        SigAction::Kill => p.kill(r.signal(), out),
        SigAction::Ignore => return,
        SigAction::Handler(h) => run_handler(p, h, t, r, out),
    }
}

/// A thread takes a pending record.
pub(crate) fn take_record<K: Sink>(p: &mut Parts, t: Tid, r: &SignalRecord, out: &mut Tracer<'_, K>)
    requires can { CanInterrupt p.old t }
    requires pending { Contains p.old.machine.pending r.now }
    requires signal { r.now.signal < 32 }
    requires caught { AreCaught p.old }
    requires frames { length (thread_at p.old.machine t).frames ≤ 2 }
    ensures { Does K.text K.faults (acts (flat_bodies p.old.code) (action_of p.old.machine r.now.signal) t r.now) p.old p.new out.old out.new }
{
    let action = p.action(r.signal());
    act(p, action, t, r, out);
}
