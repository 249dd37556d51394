//! Generating a signal that no call sends: the expiry of a timer, or the notification of a message queue.
ghost use Rattle.std.specs.Prelude.{◌≡◌, ◌<◌, ◌^◌, IfSome, None, length};
ghost use Rattle.rules_machine.specs.Signals.{acceptor, generates};
ghost use Rattle.kernel_state.specs.Caught.{HasRoomToPend};
ghost use Rattle.kernel_state.specs.Kernel.{after};
ghost use Rattle.kernel_state.specs.Does.{Does};
ghost use Rattle.calls_generation.specs.Premises.{CanGenerate};

use crate::acceptance::{accept, is_ignored};
use kernel_signals::SignalRecord;
use kernel_state::Parts;
use parts_io::Sink;
use parts_tracer::Tracer;

// Nobody accepts the signal: it is ignored, or it becomes pending. Nothing is told.
#[inline(always)]
#[tactic(auto, using(crate::proofs::Generated::as_ignored, crate::proofs::Generated::as_pending, crate::proofs::Generated::nothing_told))]
fn generate_unaccepted(p: &mut Parts, r: &SignalRecord)
    requires signal { r.now.signal < 32 }
    requires nobody { acceptor p.old.machine r.now ≡ None }
    requires pends { HasRoomToPend p.old.machine }
    requires serial { p.old.machine.next_serial < 2 ^ 63 }
    ensures { p.new ≡ after (generates r.now) p.old }
{
    if !is_ignored(p, r) {
        p.pend(*r);
    }
}

/// The signal of a record is generated, where there is room for one more: a thread that waits for it accepts it, or it is ignored, or it
/// becomes pending.
#[inline(always)]
#[tactic(auto, using(crate::proofs::Generated::as_accepted, crate::proofs::Generated::told_accepted, crate::proofs::Generated::nothing_told, crate::proofs::Generated::nobody_accepts))]
pub fn generate<K: Sink>(p: &mut Parts, r: &SignalRecord, out: &mut Tracer<'_, K>)
    requires signal { r.now.signal < 32 }
    requires target { IfSome r.now.target (λ u. u < length p.old.names) }
    requires can { CanGenerate p.old }
    ensures { Does K.text K.faults (generates r.now) p.old p.new out.old out.new }
{
    match p.acceptor(r) {
        // a copy of its own, so that the record is kept in no memory where nobody accepts it
        Some(w) => {
            let accepted = *r;
            accept(p, w, &accepted, out);
        }
        None => generate_unaccepted(p, r),
    }
}
