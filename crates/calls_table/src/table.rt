//! Calls that are made: each has its effect, by what it is on, or a request to end acts in its place.
ghost use Rattle.std.specs.Prelude.{◌≡◌};
ghost use Rattle.rules_machine.specs.Calls.{makes_call};
ghost use Rattle.rules_flat_code.specs.FlatBodies.{flat_bodies};
ghost use Rattle.kernel_state.specs.Does.{Does};
ghost use Rattle.calls_subjects.specs.Subjects.{subject_of};
ghost use Rattle.calls_subjects.specs.declared.Subject.TheVariants as subject;
ghost use Rattle.kernel_state.specs.Kernel.{by};
ghost use Rattle.kernel_wakes.specs.Calls.{CanMakeCall};

use calls_queues::do_queue_call;
use calls_scheduling::do_scheduling_call;
use calls_signals::do_signal_call;
use calls_subjects::{Subject, subject_of};
use calls_sync::do_sync_call;
use calls_threads::{acts_in_place, do_thread_call};
use kernel_state::{Caller, Parts};
use kernel_wakes::cancel_now;
use parts_io::Sink;
use parts_tracer::Tracer;
use words_numbers::Tid;
use words_script::Call;

/// The thread makes a call on what runs and when, or a request acts in its place.
#[inline(always)]
pub fn make_scheduling_call<K: Sink>(
    p: &mut Parts,
    thread: Tid,
    call: &Call,
    out: &mut Tracer<'_, K>,
)
    requires caller { CanMakeCall p.old thread call.now }
    requires subject { subject_of call.now ≡ subject.Scheduling }
    ensures { Does K.text K.faults (makes_call (flat_bodies p.old.code) (by thread call.now)) p.old p.new out.old out.new }
{
    let by = Caller { thread, call };
    if acts_in_place(p, &by) {
        cancel_now(p, thread, out);
    } else {
        do_scheduling_call(p, &by, out);
    }
}

/// The thread makes a call on the ends of threads, and their cancellation, or a request acts in its place.
#[inline(always)]
pub fn make_thread_call<K: Sink>(p: &mut Parts, thread: Tid, call: &Call, out: &mut Tracer<'_, K>)
    requires caller { CanMakeCall p.old thread call.now }
    requires subject { subject_of call.now ≡ subject.Threads }
    ensures { Does K.text K.faults (makes_call (flat_bodies p.old.code) (by thread call.now)) p.old p.new out.old out.new }
{
    let by = Caller { thread, call };
    if acts_in_place(p, &by) {
        cancel_now(p, thread, out);
    } else {
        do_thread_call(p, &by, out);
    }
}

/// The thread makes a call on a mutex, a condition or a semaphore, or a request acts in its place.
#[inline(always)]
pub fn make_sync_call<K: Sink>(p: &mut Parts, thread: Tid, call: &Call, out: &mut Tracer<'_, K>)
    requires caller { CanMakeCall p.old thread call.now }
    requires subject { subject_of call.now ≡ subject.Sync }
    ensures { Does K.text K.faults (makes_call (flat_bodies p.old.code) (by thread call.now)) p.old p.new out.old out.new }
{
    let by = Caller { thread, call };
    if acts_in_place(p, &by) {
        cancel_now(p, thread, out);
    } else {
        do_sync_call(p, &by, out);
    }
}

/// The thread makes a call on signals, or on a timer that sends one, or a request acts in its place.
#[inline(always)]
pub fn make_signal_call<K: Sink>(p: &mut Parts, thread: Tid, call: &Call, out: &mut Tracer<'_, K>)
    requires caller { CanMakeCall p.old thread call.now }
    requires subject { subject_of call.now ≡ subject.Signals }
    ensures { Does K.text K.faults (makes_call (flat_bodies p.old.code) (by thread call.now)) p.old p.new out.old out.new }
{
    let by = Caller { thread, call };
    if acts_in_place(p, &by) {
        cancel_now(p, thread, out);
    } else {
        do_signal_call(p, &by, out);
    }
}

/// The thread makes a call on a message queue, or a request acts in its place.
#[inline(always)]
pub fn make_queue_call<K: Sink>(p: &mut Parts, thread: Tid, call: &Call, out: &mut Tracer<'_, K>)
    requires caller { CanMakeCall p.old thread call.now }
    requires subject { subject_of call.now ≡ subject.Queues }
    ensures { Does K.text K.faults (makes_call (flat_bodies p.old.code) (by thread call.now)) p.old p.new out.old out.new }
{
    let by = Caller { thread, call };
    if acts_in_place(p, &by) {
        cancel_now(p, thread, out);
    } else {
        do_queue_call(p, &by, out);
    }
}

/// The thread makes the call, or a request acts in its place.
#[inline(always)]
pub fn make_call<K: Sink>(p: &mut Parts, thread: Tid, call: &Call, out: &mut Tracer<'_, K>)
    requires { CanMakeCall p.old thread call.now }
    ensures { Does K.text K.faults (makes_call (flat_bodies p.old.code) (by thread call.now)) p.old p.new out.old out.new }
{
    match subject_of(call) {
        Subject::Scheduling => make_scheduling_call(p, thread, call, out),
        Subject::Threads => make_thread_call(p, thread, call, out),
        Subject::Sync => make_sync_call(p, thread, call, out),
        Subject::Signals => make_signal_call(p, thread, call, out),
        Subject::Queues => make_queue_call(p, thread, call, out),
    }
}
