//! The chain and the waiters, together.
ghost use Rattle.std.specs.Prelude.{◌≡◌, ◌<◌, IfSome, IsSome, None, Some, false, length, slice_set};
ghost use Rattle.rules_machine.specs.Priorities.{assigned_of, mutex_waited};
ghost use Rattle.rules_machine.specs.Threads.{thread_in};
ghost use Rattle.parts_waiters.specs.Places.{place_in};
ghost use Rattle.kernel_threads.specs.Plain.{wait_of};
ghost use Rattle.parts_owners.specs.Chains.{assigned_at, assigned_to, awaited_in, exec_of, waiting_for, with_claim};
ghost use Rattle.parts_owners.specs.Moves.{TellsMoved, entered, left, mutex_named};
ghost use Rattle.kernel_table.specs.Moves.{ArePriced, CanRelink, MayAwait, Relinks, begun};

use kernel_threads::{Threads, Wait};
use parts_owners::{Chain, Moved};
use parts_waiters::{Place, WaitObj, Waits};
use words_numbers::{ObjId, Tid};

/// The chain takes the assigned priority of the thread, where it is another.
#[inline(always)]
pub(crate) fn reassign(
    threads: &Threads,
    chain: &mut Chain,
    waits: &mut Waits,
    t: Tid,
) -> Option<Moved>
    requires thread { t < length threads.now }
    requires can { CanRelink chain.old waits.old t }
    ensures links { Relinks (with_claim t (assigned_to (assigned_of (thread_in threads.now t))) chain.old) waits.old chain.old chain.new waits.new result }
    ensures alone { awaited_in chain.old.claims t ≡ None → IfSome result (λ m. m.thread ≡ t) }
{
    let p = threads.get(t).assigned();
    if chain.assigned(t).get() == p.get() {
        return None;
    }
    chain.set_base(waits, t, p)
}

/// The same where the assigned priority may be another.
#[inline(always)]
pub(crate) fn reassign_changed(
    threads: &Threads,
    chain: &mut Chain,
    waits: &mut Waits,
    t: Tid,
    may_be_another: bool,
) -> Option<Moved>
    requires thread { t < length threads.now }
    requires can { CanRelink chain.old waits.old t }
    requires same { may_be_another ≡ false → assigned_of (thread_in threads.now t) ≡ assigned_at chain.old t }
    ensures links { Relinks (with_claim t (assigned_to (assigned_of (thread_in threads.now t))) chain.old) waits.old chain.old chain.new waits.new result }
    ensures alone { awaited_in chain.old.claims t ≡ None → IfSome result (λ m. m.thread ≡ t) }
{
    if !may_be_another {
        return None;
    }
    reassign(threads, chain, waits, t)
}

/// The thread waits for nothing in an order.
#[inline(always)]
#[tactic(auto, using(crate::proofs::Places::left_placed, crate::proofs::Places::left_nowhere))]
pub(crate) fn stop_waiting(chain: &mut Chain, waits: &mut Waits, t: Tid) -> Option<Moved>
    requires can { CanRelink chain.old waits.old t }
    ensures links { Relinks (with_claim t (waiting_for None) chain.old) (left t waits.old) chain.old chain.new waits.new result }
    ensures nowhere { place_in waits.new t ≡ None }
{
    if waits.place_of(t).is_none() {
        return None;
    }
    leave_place(chain, waits, t)
}

/// The same of a thread that mostly awaits a mutex which is free.
#[inline(always)]
#[tactic(auto, using(crate::proofs::Places::left_placed, crate::proofs::Places::left_nowhere))]
pub(crate) fn stop_awaiting(chain: &mut Chain, waits: &mut Waits, t: Tid) -> Option<Moved>
    requires can { CanRelink chain.old waits.old t }
    ensures links { Relinks (with_claim t (waiting_for None) chain.old) (left t waits.old) chain.old chain.new waits.new result }
    ensures nowhere { place_in waits.new t ≡ None }
{
    if waits.place_of(t).is_none() {
        return None;
    }
    if chain.awaits(t) {
        return chain.stop_wait(waits, t);
    }
    waits.leave(t);
    None
}

/// Costs nothing when it runs: a thread that stands nowhere waits for nothing in an order.
#[inline(always)]
#[tactic(auto, using(crate::proofs::Places::left_placed, crate::proofs::Places::left_nowhere))]
pub(crate) fn stands_nowhere(chain: &Chain, waits: &Waits, t: Tid)
    requires can { CanRelink chain.now waits.now t }
    requires nowhere { place_in waits.now t ≡ None }
    ensures chain { chain.now ≡ with_claim t (waiting_for None) chain.now }
    ensures waits { ArePriced chain.now (left t waits.now) waits.now }
{
    let _ = chain;
    let _ = waits;
    let _ = t;
}

// The thread leaves its place among the waiters.
#[inline(always)]
#[tactic(auto, using(crate::proofs::Places::left_placed, crate::proofs::Places::left_nowhere))]
fn leave_place(chain: &mut Chain, waits: &mut Waits, t: Tid) -> Option<Moved>
    requires can { CanRelink chain.old waits.old t }
    requires stands { IsSome (place_in waits.old t) }
    ensures links { Relinks (with_claim t (waiting_for None) chain.old) (left t waits.old) chain.old chain.new waits.new result }
    ensures nowhere { place_in waits.new t ≡ None }
{
    if chain.awaits(t) {
        return leave_mutex(chain, waits, t);
    }
    waits.leave(t);
    None
}

// The thread, which awaits a mutex, leaves its place among the waiters.
#[inline(never)]
#[tactic(auto, using(crate::proofs::Places::left_placed, crate::proofs::Places::left_nowhere))]
fn leave_mutex(chain: &mut Chain, waits: &mut Waits, t: Tid) -> Option<Moved>
    requires can { CanRelink chain.old waits.old t }
    requires awaits { IsSome (awaited_in chain.old.claims t) }
    requires stands { IsSome (place_in waits.old t) }
    ensures links { Relinks (with_claim t (waiting_for None) chain.old) (left t waits.old) chain.old chain.new waits.new result }
    ensures nowhere { place_in waits.new t ≡ None }
{
    chain.stop_wait(waits, t)
}

/// The thread, which waits for nothing in an order, begins to wait at its execution priority.
#[inline(always)]
pub(crate) fn begin_waiting(
    chain: &mut Chain,
    waits: &mut Waits,
    t: Tid,
    wait: &Wait,
    serial: u64,
) -> Option<Moved>
    requires can { CanRelink chain.old waits.old t }
    requires nowhere { place_in waits.old t ≡ None }
    requires may { MayAwait chain.old t (mutex_waited (wait_of wait.now)) }
    ensures chain { chain.new ≡ with_claim t (waiting_for (mutex_waited (wait_of wait.now))) chain.old }
    ensures waits { ArePriced chain.new (begun chain.old t (wait_of wait.now) serial waits.old) waits.new }
    ensures moved { TellsMoved (length chain.old.claims) (exec_of chain.old) (exec_of chain.new) waits.new result }
{
    let none = ObjId::default();
    match *wait {
        Wait::Mutex(k) => await_mutex(chain, waits, t, k, serial),
        Wait::MutexAgain(k, _) => await_mutex(chain, waits, t, k, serial),
        Wait::Condition(c, k) => stand_at(chain, waits, t, WaitObj::Cond(c), k, serial),
        Wait::Semaphore(k) => stand_at(chain, waits, t, WaitObj::Sem(k), none, serial),
        Wait::Room(q, _) => stand_at(chain, waits, t, WaitObj::Sender(q), none, serial),
        Wait::Message(q) => stand_at(chain, waits, t, WaitObj::Receiver(q), none, serial),
        Wait::Signal(_) => stand_at(chain, waits, t, WaitObj::SigWait, none, serial),
        Wait::End(_) => None,
        Wait::Time => None,
    }
}

/// It awaits a mutex.
#[inline(always)]
pub(crate) fn await_mutex(
    chain: &mut Chain,
    waits: &mut Waits,
    t: Tid,
    k: ObjId,
    serial: u64,
) -> Option<Moved>
    requires can { CanRelink chain.old waits.old t }
    requires nowhere { place_in waits.old t ≡ None }
    requires may { MayAwait chain.old t (Some k) }
    ensures chain { chain.new ≡ with_claim t (waiting_for (Some k)) chain.old }
    ensures waits { ArePriced chain.new (entered t k serial chain.old waits.old) waits.new }
    ensures moved { TellsMoved (length chain.old.claims) (exec_of chain.old) (exec_of chain.new) waits.new result }
{
    match chain.mutex(k).owner() {
        Some(owner) => chain.wait_on(waits, t, k, owner, serial),
        None => unreachable!(),
    }
}

// It stands among the waiters of an object that is no mutex, with the mutex that a condition's wait released, and no priority changes.
#[inline(always)]
fn stand_at(
    chain: &Chain,
    waits: &mut Waits,
    t: Tid,
    object: WaitObj,
    released: ObjId,
    serial: u64,
) -> Option<Moved>
    requires can { CanRelink chain.now waits.old t }
    requires nowhere { place_in waits.old t ≡ None }
    requires other { mutex_named object ≡ None }
    ensures chain { chain.now ≡ with_claim t (waiting_for None) chain.now }
    ensures waits { ArePriced chain.now (slice_set waits.old t (Some (record { object = object; priority = exec_of chain.now t; serial = serial; released = released }))) waits.new }
    ensures nobody { result ≡ None }
{
    let place = Place {
        object,
        priority: chain.exec(t),
        released,
        serial,
    };
    waits.enter(t, &place);
    None
}
