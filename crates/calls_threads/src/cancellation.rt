//! Cancellation: requests to end, and where they act.
ghost use Rattle.std.specs.Prelude.{◌≡◌, ◌<◌, ◌&&◌, length};
ghost use Rattle.words_numbers.specs.declared.res.Res.TheVariants as res;
ghost use Rattle.rules_machine.specs.Cancellation.{acts_if_blocked, cancels, is_cancellation_point, leaves, leaves_wait, request_acts, requested, sets_cancelability};
ghost use Rattle.rules_machine.specs.Lives.{with_joiner};
ghost use Rattle.rules_machine.specs.State.{nobody};
ghost use Rattle.rules_machine.specs.Threads.{thread_at, waiting_of};
ghost use Rattle.rules_machine.specs.Turns.{changes, returns, ◌▷◌};
ghost use Rattle.rules_machine.specs.Waking.{wakes_cancelled};
ghost use Rattle.kernel_threads.specs.Plain.{wait_of};
ghost use Rattle.kernel_threads.specs.Unused.{IsUnused};
ghost use Rattle.kernel_state.specs.Does.{Does};
ghost use Rattle.kernel_state.specs.Caller.{caller};
ghost use Rattle.kernel_wakes.specs.Joins.{EndIsKnown};
ghost use Rattle.kernel_state.specs.Callers.{CanRise};
ghost use Rattle.calls_sync.specs.Premises.{CanContend};
ghost use Rattle.calls_threads.specs.Premises.{CanCancel};

use calls_sync::contend;
use kernel_state::{Caller, Parts};
use kernel_threads::{Joiner, Wait};
use kernel_wakes::wake_cancelled;
use parts_io::Sink;
use parts_tracer::Tracer;
use rules_machine::{CondEnd, is_cancellation_point};
use words_numbers::{Res, Tid};

/// Whether a request acts in place of the call.
pub fn acts_in_place(p: &Parts, by: &Caller<'_>) -> bool
    requires { by.now.thread < length p.now.names }
    ensures { result ≡ (is_cancellation_point by.now.call.now && request_acts (thread_at p.now.machine by.now.thread)) }
{
    is_cancellation_point(by.call) && p.thread(by.thread).request_acts()
}

/// `pthread_setcancelstate`.
pub(crate) fn set_cancelability<K: Sink>(
    p: &mut Parts,
    by: &Caller<'_>,
    on: bool,
    out: &mut Tracer<'_, K>,
)
    requires known { by.now.thread < length p.old.names }
    ensures { Does K.text K.faults (sets_cancelability (caller by.now) on) p.old p.new out.old out.new }
{
    p.set_enabled(by.thread, on);
    p.returns(by, Res::Zero, 0, out);
}

// A joiner leaves its thread to be joined by another.
#[tactic(auto, using(crate::proofs::Joined::joined_unused))]
fn leave_end<K: Sink>(p: &mut Parts, t: Tid, u: Tid, out: &mut Tracer<'_, K>)
    requires thread { t < length p.old.names }
    requires can { CanRise p.old u }
    ensures { Does K.text K.faults (λ s. s ▷ changes t (with_joiner nobody) ▷ wakes_cancelled u) p.old p.new out.old out.new }
{
    p.set_joiner(t, Joiner::Nobody);
    wake_cancelled(p, u, out);
}

// A request acts in a thread that waits so.
fn leave<K: Sink>(p: &mut Parts, wait: &Wait, u: Tid, out: &mut Tracer<'_, K>)
    requires known { u < length p.old.names }
    requires end { EndIsKnown (length p.old.names) (wait_of wait.now) }
    requires can { CanContend p.old }
    requires unused { IsUnused (thread_at p.old.machine u).server }
    ensures { Does K.text K.faults (leaves (wait_of wait.now) u) p.old p.new out.old out.new }
{
    match wait {
        Wait::Mutex(_) => return,
        Wait::MutexAgain(_, _) => return,
        Wait::Condition(_, _) => contend(p, u, CondEnd::Cancelled, out),
        Wait::End(t) => leave_end(p, *t, u, out),
        Wait::Semaphore(_) => wake_cancelled(p, u, out),
        Wait::Time => wake_cancelled(p, u, out),
        Wait::Room(_, _) => wake_cancelled(p, u, out),
        Wait::Message(_) => wake_cancelled(p, u, out),
        Wait::Signal(_) => wake_cancelled(p, u, out),
    }
}

// A request acts in a thread, if that waits.
#[tactic(auto, using(crate::proofs::Left::none_left, crate::proofs::Left::some_left, crate::proofs::Left::end_known, crate::proofs::Left::left_unused))]
fn leave_wait<K: Sink>(p: &mut Parts, u: Tid, out: &mut Tracer<'_, K>)
    requires known { u < length p.old.names }
    requires can { CanCancel p.old }
    ensures { Does K.text K.faults (λ s. leaves_wait (waiting_of s.machine u) u s) p.old p.new out.old out.new }
{
    match p.thread(u).wait() {
        None => return,
        Some(wait) => leave(p, &wait, u, out),
    }
}

// A request acts at once in a thread that waits.
fn act_if_blocked<K: Sink>(p: &mut Parts, u: Tid, out: &mut Tracer<'_, K>)
    requires known { u < length p.old.names }
    requires can { CanCancel p.old }
    ensures { Does K.text K.faults (acts_if_blocked u) p.old p.new out.old out.new }
{
    if p.thread(u).request_acts() {
        leave_wait(p, u, out);
    }
}

// A thread is asked to end, once the call has returned.
fn ask_to_end<K: Sink>(p: &mut Parts, by: &Caller<'_>, u: Tid, out: &mut Tracer<'_, K>)
    requires known { by.now.thread < length p.old.names }
    requires thread { u < length p.old.names }
    ensures { Does K.text K.faults (λ s. s ▷ returns (caller by.now) res.Zero 0 ▷ changes u requested) p.old p.new out.old out.new }
{
    p.returns(by, Res::Zero, 0, out);
    p.request_end(u);
}

// A live thread is asked to end, and the request acts where it waits.
fn cancel_live<K: Sink>(p: &mut Parts, by: &Caller<'_>, u: Tid, out: &mut Tracer<'_, K>)
    requires known { by.now.thread < length p.old.names }
    requires thread { u < length p.old.names }
    requires can { CanCancel p.old }
    ensures { Does K.text K.faults (λ s. s ▷ returns (caller by.now) res.Zero 0 ▷ changes u requested ▷ acts_if_blocked u) p.old p.new out.old out.new }
{
    ask_to_end(p, by, u, out);
    act_if_blocked(p, u, out);
}

/// `pthread_cancel`.
pub(crate) fn cancel<K: Sink>(p: &mut Parts, by: &Caller<'_>, u: Tid, out: &mut Tracer<'_, K>)
    requires known { by.now.thread < length p.old.names }
    requires thread { u < length p.old.names }
    requires can { CanCancel p.old }
    ensures { Does K.text K.faults (cancels (caller by.now) u) p.old p.new out.old out.new }
{
    if p.thread(u).is_live() {
        cancel_live(p, by, u, out);
    } else {
        p.returns(by, Res::Srch, 0, out);
    }
}
