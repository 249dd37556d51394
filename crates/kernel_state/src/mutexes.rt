//! Owners and counts of mutexes, and who waits for them.
ghost use Rattle.std.specs.Prelude.{◌≡◌, ◌<◌, Bool, IfSome, None, length, option_map, true};
ghost use Rattle.rules_machine.specs.Mutexes.{closes_cycle, freed, is_above_ceiling, taken_by};
ghost use Rattle.rules_machine.specs.Priorities.{mutex_awaited_by};
ghost use Rattle.rules_machine.specs.State.{Wait};
ghost use Rattle.parts_waiters.specs.declared.WaitObj.TheVariants as wait_obj;
ghost use Rattle.parts_waiters.specs.Ties.{is_object, object_of};
ghost use Rattle.rules_machine.specs.Threads.{is_blocked, mutex_at, thread_at};
ghost use Rattle.rules_machine.specs.Turns.{changes, changes_mutex, ◌▷◌};
ghost use Rattle.rules_machine.specs.Waiters.{Waiter, best_waiter};
ghost use Rattle.rules_machine.specs.Waking.{woken};
ghost use Rattle.parts_owners.specs.Chains.{counted, is_plainly_free, taken_if};
ghost use Rattle.kernel_state.specs.Kernel.{after};
ghost use Rattle.kernel_state.specs.Callers.{IsOwner};

use crate::parts::Parts;
use parts_owners::MutexState;
use parts_waiters::WaitObj;
use words_numbers::{ObjId, Res, Tid};
use words_script::Protocol;

impl Parts {
    /// A mutex as it stands.
    pub fn mutex(&self, k: ObjId) -> &MutexState
        requires { k < length self.now.machine.mutexes }
        ensures { result.now ≡ mutex_at self.now.machine k }
    {
        self.table.mutex(k)
    }

    /// Whether the assigned priority of the thread is above the mutex's ceiling.
    #[inline(always)]
    pub fn is_above_ceiling(&self, t: Tid, k: ObjId) -> bool
        requires thread { t < length self.now.names }
        requires mutex { k < length self.now.machine.mutexes }
        ensures { result ≡ is_above_ceiling (thread_at self.now.machine t) (mutex_at self.now.machine k).protocol }
    {
        match self.table.mutex(k).protocol() {
            Protocol::Plain => false,
            Protocol::Inherit => false,
            Protocol::Protect(ceiling) => ceiling < self.table.thread(t).assigned(),
        }
    }

    /// Whether to wait for the mutex would close a cycle.
    #[tactic(auto, using(crate::proofs::Waits::cycle_is))]
    pub fn closes_cycle(&self, t: Tid, k: ObjId) -> bool
        requires { k < length self.now.machine.mutexes }
        ensures { result ≡ closes_cycle self.now.machine k t }
    {
        self.table.closes_cycle(t, k)
    }

    /// The mutex is counted so often, with the same owner.
    pub fn set_count(&mut self, k: ObjId, n: u16)
        requires { k < length self.old.machine.mutexes }
        ensures { self.new ≡ after (changes_mutex k (counted n)) self.old }
    {
        self.table.set_count(k, n);
    }

    /// The thread, which waits for no mutex, owns the mutex, which was free.
    pub fn take_mutex(&mut self, k: ObjId, t: Tid)
        requires known { t < length self.old.names }
        requires mutex { k < length self.old.machine.mutexes }
        requires free { (mutex_at self.old.machine k).owner ≡ None }
        requires waits_not { mutex_awaited_by (thread_at self.old.machine t) ≡ None }
        ensures { self.new ≡ after (changes_mutex k (taken_by t)) self.old }
    {
        let moved = self.table.take(k, t);
        self.named.take_in(&moved);
    }

    /// The thread, which waits for no mutex, owns the mutex where it is plainly free. The answer is whether it is.
    #[inline(always)]
    pub fn take_at_once(&mut self, k: ObjId, t: Tid) -> bool
        requires known { t < length self.old.names }
        requires mutex { k < length self.old.machine.mutexes }
        requires waits_not { mutex_awaited_by (thread_at self.old.machine t) ≡ None }
        ensures value { (passes : Wait → Bool) → ((w : Wait) → passes w ≡ is_object (wait_obj.Mutex k) (object_of w)) → result ≡ is_plainly_free (mutex_at self.old.machine k) (option_map (λ (w : Waiter). w.thread) (best_waiter self.old.machine passes)) }
        ensures state { self.new ≡ after (changes_mutex k (taken_if result t)) self.old }
    {
        self.table.take_at_once(k, t)
    }

    /// The mutex, which the thread owned, is free.
    #[inline(always)]
    pub fn release_mutex(&mut self, k: ObjId, t: Tid)
        requires { IsOwner self.old.machine k t }
        ensures { self.new ≡ after (changes_mutex k freed) self.old }
    {
        let moved = self.table.release(k, t);
        self.named.take_in(&moved);
    }

    /// The mutex goes from its owner to a thread that is runnable again.
    #[inline(always)]
    pub fn hand_over(&mut self, k: ObjId, owner: Tid, t: Tid, res: Res, value: u64)
        requires known { t < length self.old.names }
        requires owner { IsOwner self.old.machine k owner }
        ensures { self.new ≡ after (λ s. s ▷ changes_mutex k (taken_by t) ▷ changes t (woken res value)) self.old }
    {
        let (released, woken) = self.table.hand_over(k, owner, t, res, value);
        self.named.add(t);
        self.named.take_in(&released);
        self.named.take_in(&woken);
    }

    /// The thread that is served first of those that wait for the object; `None` exactly where nobody does.
    pub fn best_waiter(&self, object: WaitObj) -> Option<Tid>
        ensures value { (passes : Wait → Bool) → ((w : Wait) → passes w ≡ is_object object (object_of w)) → result ≡ option_map (λ (w : Waiter). w.thread) (best_waiter self.now.machine passes) }
        ensures known { IfSome result (λ t. t < length self.now.names) }
        ensures blocked { IfSome result (λ t. is_blocked (thread_at self.now.machine t).status ≡ true) }
    {
        self.table.best(object)
    }
}
