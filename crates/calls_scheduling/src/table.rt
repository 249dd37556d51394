//! The table of the calls of scheduling.
ghost use Rattle.std.specs.Prelude.{◌≡◌};
ghost use Rattle.rules_machine.specs.Turns.{returns};
ghost use Rattle.rules_machine.specs.Calls.{call_effect};
ghost use Rattle.rules_flat_code.specs.FlatBodies.{flat_bodies};
ghost use Rattle.rules_flat_code.specs.KnownCalls.{KnowsObjects};
ghost use Rattle.kernel_state.specs.Does.{Does};
ghost use Rattle.kernel_state.specs.Caller.{caller};
ghost use Rattle.kernel_wakes.specs.Calls.{CanCall, objects_in};
ghost use Rattle.calls_subjects.specs.Subjects.{subject_of};
ghost use Rattle.calls_subjects.specs.declared.Subject.TheVariants as subject;

use crate::lives::create;
use crate::scheduling::{sched_yield, setschedparam, setschedprio};
use crate::time::sleep_until;
use kernel_state::{Caller, Parts};
use parts_io::Sink;
use parts_tracer::Tracer;
use words_numbers::Res;
use words_script::Call;

/// The effect of a call on what runs and when.
#[inline(always)]
pub fn do_scheduling_call<K: Sink>(p: &mut Parts, by: &Caller<'_>, out: &mut Tracer<'_, K>)
    requires caller { CanCall p.old by.now.thread }
    requires objects { KnowsObjects (objects_in p.old) by.now.call.now }
    requires subject { subject_of by.now.call.now ≡ subject.Scheduling }
    ensures { Does K.text K.faults (call_effect (flat_bodies p.old.code) (caller by.now) by.now.call.now) p.old p.new out.old out.new }
{
    match by.call {
        Call::Yield => sched_yield(p, by, out),
        Call::Create(u) => create(p, by, *u, out),
        Call::Setprio(u, prio) => setschedprio(p, by, *u, *prio, out),
        Call::Setsched(u, policy) => setschedparam(p, by, *u, policy, out),
        Call::Nanosleep(n) => sleep_until(p, by, p.instant().plus(*n), out),
        Call::ClockNanosleep { at } => sleep_until(p, by, p.moment(by.thread, at), out),
        Call::Gettime => p.returns(by, Res::Zero, p.instant().get(), out),
        Call::RealGettime => p.returns(by, Res::Zero, p.real_time(), out),
        _ => unreachable!(),
    }
}
