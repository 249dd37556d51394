//! The table of the calls of mutexes, conditions and semaphores.
ghost use Rattle.std.specs.Prelude.{◌≡◌};
ghost use Rattle.rules_machine.specs.Calls.{call_effect};
ghost use Rattle.rules_flat_code.specs.FlatBodies.{flat_bodies};
ghost use Rattle.rules_flat_code.specs.KnownCalls.{KnowsObjects};
ghost use Rattle.kernel_state.specs.Does.{Does};
ghost use Rattle.kernel_state.specs.Caller.{caller};
ghost use Rattle.kernel_wakes.specs.Calls.{CanCall, objects_in};
ghost use Rattle.calls_subjects.specs.Subjects.{subject_of};
ghost use Rattle.calls_subjects.specs.declared.Subject.TheVariants as subject;

use crate::conditions::{cond_broadcast, cond_signal, cond_wait};
use crate::mutexes::{mutex_lock, mutex_trylock, mutex_unlock};
use crate::semaphores::{sem_getvalue, sem_post, sem_trywait, sem_wait};
use kernel_state::{Caller, Parts};
use parts_io::Sink;
use parts_tracer::Tracer;
use words_script::Call;

/// The effect of a call on a mutex, a condition or a semaphore.
#[inline(always)]
pub fn do_sync_call<K: Sink>(p: &mut Parts, by: &Caller<'_>, out: &mut Tracer<'_, K>)
    requires caller { CanCall p.old by.now.thread }
    requires objects { KnowsObjects (objects_in p.old) by.now.call.now }
    requires subject { subject_of by.now.call.now ≡ subject.Sync }
    ensures { Does K.text K.faults (call_effect (flat_bodies p.old.code) (caller by.now) by.now.call.now) p.old p.new out.old out.new }
{
    match by.call {
        Call::Lock(k) => mutex_lock(p, by, *k, None, out),
        Call::Timedlock { mutex, at } => mutex_lock(
            p,
            by,
            *mutex,
            Some(p.moment(by.thread, at)),
            out,
        ),
        Call::Trylock(k) => mutex_trylock(p, by, *k, out),
        Call::Unlock(k) => mutex_unlock(p, by, *k, out),
        Call::Wait(c, k) => cond_wait(p, by, *c, *k, None, out),
        Call::Timedwait { cond, mutex, at } => {
            cond_wait(p, by, *cond, *mutex, Some(p.moment(by.thread, at)), out)
        }
        Call::Signal(c) => cond_signal(p, by, *c, out),
        Call::Broadcast(c) => cond_broadcast(p, by, *c, out),
        Call::SemWait(k) => sem_wait(p, by, *k, None, out),
        Call::SemTimedwait { sem, at } => sem_wait(p, by, *sem, Some(p.moment(by.thread, at)), out),
        Call::SemTrywait(k) => sem_trywait(p, by, *k, out),
        Call::SemGetvalue(k) => sem_getvalue(p, by, *k, out),
        Call::SemPost(k) => sem_post(p, by, *k, out),
        _ => unreachable!(),
    }
}
