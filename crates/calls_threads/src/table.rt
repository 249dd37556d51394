//! The table of the calls of joining, ending, cancellation and cleanup handlers.
ghost use Rattle.std.specs.Prelude.{◌≡◌, length};
ghost use Rattle.rules_machine.specs.Threads.{thread_at};
ghost use Rattle.rules_machine.specs.Turns.{returns};
ghost use Rattle.rules_machine.specs.Calls.{call_effect};
ghost use Rattle.rules_flat_code.specs.FlatBodies.{flat_bodies};
ghost use Rattle.rules_flat_code.specs.KnownCalls.{KnowsObjects};
ghost use Rattle.kernel_state.specs.Does.{Does};
ghost use Rattle.kernel_state.specs.Caller.{caller};
ghost use Rattle.kernel_wakes.specs.Calls.{CanCall, HasRoomFor, objects_in};
ghost use Rattle.calls_subjects.specs.Subjects.{subject_of};
ghost use Rattle.calls_subjects.specs.declared.Subject.TheVariants as subject;

use crate::cancellation::{cancel, set_cancelability};
use crate::cleanups::{pop_cleanup, push_cleanup};
use crate::ends::exit;
use crate::joins::join;
use kernel_state::{Caller, Parts};
use parts_io::Sink;
use parts_tracer::Tracer;
use words_numbers::Res;
use words_script::Call;

/// The effect of a call of joining, ending, cancellation or cleanup handlers.
#[inline(always)]
pub fn do_thread_call<K: Sink>(p: &mut Parts, by: &Caller<'_>, out: &mut Tracer<'_, K>)
    requires caller { CanCall p.old by.now.thread }
    requires objects { KnowsObjects (objects_in p.old) by.now.call.now }
    requires guards { HasRoomFor (length p.old.code.cleanups) (thread_at p.old.machine by.now.thread) by.now.call.now }
    requires subject { subject_of by.now.call.now ≡ subject.Threads }
    ensures { Does K.text K.faults (call_effect (flat_bodies p.old.code) (caller by.now) by.now.call.now) p.old p.new out.old out.new }
{
    match by.call {
        Call::Join(u) => join(p, by, *u, out),
        Call::Cancel(u) => cancel(p, by, *u, out),
        Call::Testcancel => p.returns(by, Res::Zero, 0, out),
        Call::Setcancel(on) => set_cancelability(p, by, *on, out),
        Call::Push(u) => push_cleanup(p, by, *u, out),
        Call::Pop(runs) => pop_cleanup(p, by, *runs, out),
        Call::Exit(v) => exit(p, by, p.number(by.thread, v)),
        _ => unreachable!(),
    }
}
