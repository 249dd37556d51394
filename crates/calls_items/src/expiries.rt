//! The expiries of interval timers.
ghost use Rattle.std.specs.Prelude.{◌<◌, length};
ghost use Rattle.rules_machine.specs.Signals.{generates};
ghost use Rattle.rules_machine.specs.Threads.{timer_at};
ghost use Rattle.rules_machine.specs.Timers.{expires, record_of_timer, signals_expiry};
ghost use Rattle.kernel_state.specs.Does.{Does};
ghost use Rattle.kernel_state.specs.Pending.{SignalsFit};
ghost use Rattle.calls_generation.specs.Premises.{CanGenerate};
ghost use Rattle.calls_items.specs.Premises.{CanExpire};

use calls_generation::generate;
use kernel_state::Parts;
use parts_io::Sink;
use parts_tracer::Tracer;
use words_numbers::ObjId;

// The signal of an expiry is generated. It stands apart, so that the way past it is short.
#[inline(never)]
#[tactic(auto, using(crate::proofs::Expired::has_signal))]
fn generate_expiry<K: Sink>(p: &mut Parts, k: ObjId, out: &mut Tracer<'_, K>)
    requires timer { k < length p.old.machine.timers }
    requires can { CanGenerate p.old }
    requires signals { SignalsFit p.old.machine }
    ensures { Does K.text K.faults (generates (record_of_timer k (timer_at p.old.machine k))) p.old p.new out.old out.new }
{
    let r = p.timer_record(k);
    generate(p, &r, out);
}

// Where a record of the timer is pending, that is one overrun more; else its signal is generated.
#[inline(always)]
#[tactic(auto, using(crate::proofs::Expired::as_overrun, crate::proofs::Expired::as_generated, crate::proofs::Expired::told_overrun, crate::proofs::Expired::told_generated, crate::proofs::Expired::has_room))]
fn signal_expiry<K: Sink>(p: &mut Parts, k: ObjId, out: &mut Tracer<'_, K>)
    requires timer { k < length p.old.machine.timers }
    requires can { CanExpire p.old }
    ensures { Does K.text K.faults (signals_expiry k) p.old p.new out.old out.new }
{
    if p.is_timer_pending(k) {
        p.overrun_once_more(k);
    } else {
        generate_expiry(p, k, out);
    }
}

/// A timer expires: its signal is generated, unless a record of the timer is pending still, which is one overrun more. Then it is due
/// again after its interval, or disarmed where it has none.
#[inline(never)]
#[tactic(auto, using(crate::proofs::Expired::signalled_now, crate::proofs::Expired::signalled_many, crate::proofs::Expired::armed_after))]
pub(crate) fn expire<K: Sink>(p: &mut Parts, k: ObjId, out: &mut Tracer<'_, K>)
    requires timer { k < length p.old.machine.timers }
    requires can { CanExpire p.old }
    ensures { Does K.text K.faults (expires k) p.old p.new out.old out.new }
{
    signal_expiry(p, k, out);
    p.arm_timer_again(k);
}
