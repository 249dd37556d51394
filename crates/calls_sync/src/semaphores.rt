//! Semaphores.
ghost use Rattle.std.specs.Prelude.{◌≡◌, ◌<◌, length, pred, suc, true};
ghost use Rattle.words_numbers.specs.declared.res.Res.TheVariants as res;
ghost use Rattle.rules_machine.specs.Semaphores.{posts, reads_semaphore, semaphore_limit, tries_semaphore, waits_semaphore};
ghost use Rattle.rules_machine.specs.Threads.{is_blocked, semaphore_at, thread_at};
ghost use Rattle.rules_machine.specs.Turns.{changes_semaphore, returns, ◌▷◌};
ghost use Rattle.rules_machine.specs.Waking.{wakes};
ghost use Rattle.kernel_state.specs.RealTimes.{MayWaitUntil};
ghost use Rattle.kernel_state.specs.Does.{Does};
ghost use Rattle.kernel_state.specs.Caller.{caller};
ghost use Rattle.kernel_state.specs.Callers.{CanBlock, CanWake};

use kernel_state::{Caller, Parts};
use kernel_threads::Wait;
use kernel_wakes::{block_unless_late, wake};
use parts_io::Sink;
use parts_tracer::Tracer;
use parts_waiters::WaitObj;
use words_numbers::{ObjId, Res, Tick, Tid};

/// The greatest value of a semaphore.
const SEM_VALUE_MAX: u16 = 32_767;

// The value, which is above 0, falls by one.
fn take<K: Sink>(p: &mut Parts, by: &Caller<'_>, k: ObjId, out: &mut Tracer<'_, K>)
    requires known { by.now.thread < length p.old.names }
    requires semaphore { k < length p.old.machine.semaphores }
    requires above { 0 < semaphore_at p.old.machine k }
    ensures { Does K.text K.faults (λ s. s ▷ changes_semaphore k pred ▷ returns (caller by.now) res.Zero 0) p.old p.new out.old out.new }
{
    p.take_semaphore(k);
    p.returns(by, Res::Zero, 0, out);
}

/// `sem_wait`, and with a time `sem_timedwait`.
pub(crate) fn sem_wait<K: Sink>(
    p: &mut Parts,
    by: &Caller<'_>,
    k: ObjId,
    due: Option<Tick>,
    out: &mut Tracer<'_, K>,
)
    requires can { CanBlock p.old by.now.thread }
    requires semaphore { k < length p.old.machine.semaphores }
    requires modest { MayWaitUntil p.old.machine by.now.call.now due }
    ensures { Does K.text K.faults (waits_semaphore (caller by.now) k due) p.old p.new out.old out.new }
{
    if p.semaphore(k) > 0 {
        take(p, by, k, out);
    } else {
        block_unless_late(p, by, Wait::Semaphore(k), due, out);
    }
}

/// `sem_trywait`.
pub(crate) fn sem_trywait<K: Sink>(
    p: &mut Parts,
    by: &Caller<'_>,
    k: ObjId,
    out: &mut Tracer<'_, K>,
)
    requires known { by.now.thread < length p.old.names }
    requires semaphore { k < length p.old.machine.semaphores }
    ensures { Does K.text K.faults (tries_semaphore (caller by.now) k) p.old p.new out.old out.new }
{
    if p.semaphore(k) == 0 {
        p.returns(by, Res::Again, 0, out);
    } else {
        take(p, by, k, out);
    }
}

/// `sem_getvalue`.
pub(crate) fn sem_getvalue<K: Sink>(
    p: &mut Parts,
    by: &Caller<'_>,
    k: ObjId,
    out: &mut Tracer<'_, K>,
)
    requires known { by.now.thread < length p.old.names }
    requires semaphore { k < length p.old.machine.semaphores }
    ensures { Does K.text K.faults (reads_semaphore (caller by.now) k) p.old p.new out.old out.new }
{
    let value = p.semaphore(k);
    p.returns(by, Res::Zero, value as u64, out);
}

// The value rises by one, unless it is the greatest.
fn raise<K: Sink>(p: &mut Parts, by: &Caller<'_>, k: ObjId, out: &mut Tracer<'_, K>)
    requires known { by.now.thread < length p.old.names }
    requires semaphore { k < length p.old.machine.semaphores }
    requires below { semaphore_at p.old.machine k < semaphore_limit }
    ensures { Does K.text K.faults (λ s. s ▷ changes_semaphore k suc ▷ returns (caller by.now) res.Zero 0) p.old p.new out.old out.new }
{
    p.post_semaphore(k);
    p.returns(by, Res::Zero, 0, out);
}

// The call returns, and the waiter that is served first wakes.
fn return_and_wake<K: Sink>(p: &mut Parts, by: &Caller<'_>, w: Tid, out: &mut Tracer<'_, K>)
    requires known { by.now.thread < length p.old.names }
    requires waiter { w < length p.old.names }
    requires can { CanWake p.old }
    requires blocked { is_blocked (thread_at p.old.machine w).status ≡ true }
    ensures { Does K.text K.faults (λ s. s ▷ returns (caller by.now) res.Zero 0 ▷ wakes w res.Zero 0) p.old p.new out.old out.new }
{
    p.returns(by, Res::Zero, 0, out);
    wake(p, w, Res::Zero, 0, out);
}

/// `sem_post`.
pub(crate) fn sem_post<K: Sink>(p: &mut Parts, by: &Caller<'_>, k: ObjId, out: &mut Tracer<'_, K>)
    requires known { by.now.thread < length p.old.names }
    requires semaphore { k < length p.old.machine.semaphores }
    requires can { CanWake p.old }
    ensures { Does K.text K.faults (posts (caller by.now) k) p.old p.new out.old out.new }
{
    if let Some(w) = p.best_waiter(WaitObj::Sem(k)) {
        return_and_wake(p, by, w, out);
    } else if p.semaphore(k) == SEM_VALUE_MAX {
        p.returns(by, Res::Overflow, 0, out);
    } else {
        raise(p, by, k, out);
    }
}
