//! The table of the calls of signals and timers.
ghost use Rattle.std.specs.Prelude.{◌≡◌};
ghost use Rattle.rules_machine.specs.Calls.{call_effect};
ghost use Rattle.rules_flat_code.specs.FlatBodies.{flat_bodies};
ghost use Rattle.rules_flat_code.specs.KnownCalls.{KnowsObjects};
ghost use Rattle.kernel_state.specs.Does.{Does};
ghost use Rattle.kernel_state.specs.Caller.{caller};
ghost use Rattle.kernel_wakes.specs.Calls.{CanCall, objects_in};
ghost use Rattle.calls_subjects.specs.Subjects.{subject_of};
ghost use Rattle.calls_subjects.specs.declared.Subject.TheVariants as subject;

use crate::clock::clock_settime;
use crate::kills::{kill, sigqueue, tkill};
use crate::masks::{sigmask_block, sigmask_set, sigmask_unblock};
use crate::sigwait::sigtimedwait;
use crate::timers::{expiry_after, expiry_at, timer_getoverrun, timer_gettime, timer_settime};
use kernel_state::{Caller, Parts};
use parts_io::Sink;
use parts_tracer::Tracer;
use words_script::Call;

/// The effect of a call on signals, on a timer or on the clock that can be set.
#[inline(always)]
#[tactic(auto, using(crate::proofs::Readings::no_reading))]
pub fn do_signal_call<K: Sink>(p: &mut Parts, by: &Caller<'_>, out: &mut Tracer<'_, K>)
    requires caller { CanCall p.old by.now.thread }
    requires objects { KnowsObjects (objects_in p.old) by.now.call.now }
    requires subject { subject_of by.now.call.now ≡ subject.Signals }
    ensures { Does K.text K.faults (call_effect (flat_bodies p.old.code) (caller by.now) by.now.call.now) p.old p.new out.old out.new }
{
    match by.call {
        Call::ClockSettime(at) => clock_settime(p, by, p.number(by.thread, at), out),
        Call::TimerSettimeRel(k, n, interval) => {
            timer_settime(
                p,
                by,
                *k,
                expiry_after(p.instant(), *n),
                false,
                *interval,
                out,
            )
        }
        Call::TimerSettimeAbs(k, at, interval) => {
            let due = expiry_at(p, *k, p.tick(by.thread, at));
            timer_settime(p, by, *k, due, p.timer(*k).is_real(), *interval, out)
        }
        Call::TimerGettime(k) => timer_gettime(p, by, *k, out),
        Call::TimerGetoverrun(k) => timer_getoverrun(p, by, *k, out),
        Call::Kill(signal) => kill(p, by, *signal, out),
        Call::Tkill(u, signal) => tkill(p, by, *u, *signal, out),
        Call::Sigqueue(signal, v) => sigqueue(p, by, *signal, p.number(by.thread, v), out),
        Call::SigmaskBlock(set) => sigmask_block(p, by, *set, out),
        Call::SigmaskUnblock(set) => sigmask_unblock(p, by, *set, out),
        Call::SigmaskSet(set) => sigmask_set(p, by, *set, out),
        Call::Sigwaitinfo(set) => sigtimedwait(p, by, *set, None, out),
        Call::Sigtimedwait(set, n) => sigtimedwait(p, by, *set, Some(*n), out),
        _ => unreachable!(),
    }
}
