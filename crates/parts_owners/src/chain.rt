//! Owners, mutex waits, and the execution priorities that follow from them.
ghost use Rattle.std.specs.Prelude.{◌≡◌, ◌==◌, ◌<◌, ◌≤◌, IfOk, IfSome, IsSome, None, Some, false, is_some, length, true, ℕ};
ghost use Rattle.std.specs.Prelude.{filter};
ghost use Rattle.std.specs.List.{list_any};
ghost use Rattle.rules_machine.specs.Lists.{is};
ghost use Rattle.rules_machine.specs.Mutexes.{freed, is_boosting, taken_by};
ghost use Rattle.rules_machine.specs.State.{Mutex};
ghost use Rattle.parts_waiters.specs.declared.WaitObj.TheVariants as wait_obj;
ghost use Rattle.parts_waiters.specs.Places.{best_of, place_in};
ghost use Rattle.parts_owners.specs.Chains.{Links, OwnersAreThreads, SameExec, assigned_at, counted, assigned_to, awaited_in, closes_cycle_in, exec_of, freed_if, is_plainly_free, mutex_at, taken_if, waiting_for, with_claim, with_mutex};
ghost use Rattle.rules_machine.specs.WellFormed.{IsPriority};
ghost use Rattle.parts_owners.specs.Fresh.{fresh};
ghost use Rattle.parts_owners.specs.Moves.{Changes, IsPlaced, MayPass, Passes, entered, left};

use crate::boosts::{owned_count, owns_boosting};
use crate::changes::{
    begin_wait, change_base, end_wait, may_pass, pass, raise_base, recount, release,
    release_at_once, rises, take, take_at_once,
};
use crate::claims::{
    MutexKind, MutexState, ThreadClaim, free_mutexes, fresh_claims, leads_to, lowest,
};
use crate::walk::Moved;
use parts_waiters::Waits;
use std::alloc::{AllocError, Global};
use std::marker::Model;
use words_numbers::{ObjId, Prio, Tid};

/// The claims of threads, the mutexes, and the execution priority of each thread.
#[derive(Drop)]
pub struct Chain {
    claims: Vec<ThreadClaim>,
    mutexes: Vec<MutexState>,
    exec: Vec<Prio>,
}

impl Model for Chain {
    ghost use Rattle.parts_owners.specs.Chains.{Links};
    ghost use Rattle.parts_owners.specs.ChainView.{IsChain, links};

    ghost Value = { Links };

    ghost view = { links };

    ghost invariant = { IsChain };
}

impl Chain {
    /// Threads whose assigned priority is 1 and that wait for nothing, and free mutexes of these kinds.
    pub fn open(alloc: Global, threads: u16, kinds: &[MutexKind]) -> Result<Chain, AllocError>
        requires { threads ≤ 256 }
        ensures { IfOk result (λ s. s ≡ fresh threads kinds.now) }
    {
        Ok(Chain {
            claims: fresh_claims(alloc, threads)?,
            mutexes: free_mutexes(alloc, kinds)?,
            exec: lowest(alloc, threads)?,
        })
    }

    /// The execution priority of the thread.
    pub fn exec(&self, t: Tid) -> Prio
        requires { t < length self.now.claims }
        ensures { result ≡ exec_of self.now t }
    {
        self.exec[t.get() as usize]
    }

    /// How many mutexes there are.
    pub fn mutex_count(&self) -> usize
        ensures { result ≡ length self.now.mutexes }
    {
        self.mutexes.len()
    }

    /// The mutex as it stands.
    pub fn mutex(&self, k: ObjId) -> &MutexState
        requires { k < length self.now.mutexes }
        ensures { result.now ≡ mutex_at self.now k }
    {
        &self.mutexes[k.get() as usize]
    }

    /// The assigned priority of the thread.
    pub fn assigned(&self, t: Tid) -> Prio
        requires { t < length self.now.claims }
        ensures { result ≡ assigned_at self.now t }
    {
        self.claims[t.get() as usize].assigned()
    }

    /// Whether the thread waits for a mutex.
    pub fn awaits(&self, t: Tid) -> bool
        requires { t < length self.now.claims }
        ensures { result ≡ is_some (awaited_in self.now.claims t) }
    {
        self.claims[t.get() as usize].awaited().is_some()
    }

    /// The mutex is counted so often, with the same owner.
    pub fn set_count(&mut self, k: ObjId, n: u16)
        requires { k < length self.old.mutexes }
        ensures chain { self.new ≡ with_mutex k (counted n) self.old }
        ensures same { SameExec self.old self.new }
    {
        recount(&self.claims, &mut self.mutexes, &self.exec, k, n);
    }

    /// Whether the thread owns a mutex that can raise its priority.
    pub fn owns_boosting(&self, t: Tid) -> bool
        ensures { result ≡ list_any (λ (k : Mutex). is_boosting k.protocol) (filter (λ (k : Mutex). is k.owner t) self.now.mutexes) }
    {
        owns_boosting(&self.mutexes, t)
    }

    /// How many mutexes the thread owns.
    pub fn owned_count(&self, t: Tid) -> usize
        ensures { result ≡ length (filter (λ (k : Mutex). is k.owner t) self.now.mutexes) }
    {
        owned_count(&self.mutexes, t)
    }

    /// Costs nothing when it runs: each owner of a mutex is a thread.
    pub fn owners_are_threads(&self)
        ensures { OwnersAreThreads self.now.claims self.now.mutexes }
    {
        let _ = &self.mutexes;
    }

    /// Costs nothing when it runs: each execution priority is in its range.
    pub fn priorities_fit(&self)
        ensures { (t : ℕ) → t < length self.now.claims → IsPriority (exec_of self.now t) }
    {
        let _ = &self.exec;
    }

    /// Whether owners and their mutex waits lead from the mutex to the thread.
    pub fn closes_cycle(&self, t: Tid, k: ObjId) -> bool
        requires { k < length self.now.mutexes }
        ensures { result ≡ closes_cycle_in self.now.claims self.now.mutexes t k }
    {
        leads_to(&self.claims, &self.mutexes, k, t)
    }

    /// The assigned priority of the thread is another. Of a thread that waits for no mutex, no other priority changes with it.
    #[inline(always)]
    pub fn set_base(&mut self, w: &mut Waits, t: Tid, p: Prio) -> Option<Moved>
        requires known { t < length self.old.claims }
        requires placed { IsPlaced self.old w.old }
        ensures chain { self.new ≡ with_claim t (assigned_to p) self.old }
        ensures changes { Changes self.old self.new w.old w.new result }
        ensures alone { awaited_in self.old.claims t ≡ None → IfSome result (λ m. m.thread ≡ t) }
    {
        if rises(&self.exec, w, t, p) {
            return raise_base(&mut self.claims, &self.mutexes, &mut self.exec, w, t, p);
        }
        self.set_base_by_walk(w, t, p)
    }

    // The same by a walk along the chain.
    #[inline(never)]
    fn set_base_by_walk(&mut self, w: &mut Waits, t: Tid, p: Prio) -> Option<Moved>
        requires known { t < length self.old.claims }
        requires placed { IsPlaced self.old w.old }
        ensures chain { self.new ≡ with_claim t (assigned_to p) self.old }
        ensures changes { Changes self.old self.new w.old w.new result }
        ensures alone { awaited_in self.old.claims t ≡ None → IfSome result (λ m. m.thread ≡ t) }
    {
        change_base(&mut self.claims, &self.mutexes, &mut self.exec, w, t, p)
    }

    /// The thread begins to wait for the mutex, at its execution priority.
    #[inline(always)]
    pub fn wait_on(
        &mut self,
        w: &mut Waits,
        t: Tid,
        k: ObjId,
        owner: Tid,
        serial: u64,
    ) -> Option<Moved>
        requires known { t < length self.old.claims }
        requires placed { IsPlaced self.old w.old }
        requires owned { (mutex_at self.old k).owner ≡ Some owner }
        requires nowhere { place_in w.old t ≡ None }
        requires no_cycle { closes_cycle_in self.old.claims self.old.mutexes t k ≡ false }
        ensures chain { self.new ≡ with_claim t (waiting_for (Some k)) self.old }
        ensures changes { Changes self.old self.new (entered t k serial self.old w.old) w.new result }
    {
        begin_wait(
            &mut self.claims,
            &self.mutexes,
            &mut self.exec,
            w,
            t,
            k,
            owner,
            serial,
        )
    }

    /// The thread waits for its mutex no more.
    #[inline(always)]
    pub fn stop_wait(&mut self, w: &mut Waits, t: Tid) -> Option<Moved>
        requires known { t < length self.old.claims }
        requires placed { IsPlaced self.old w.old }
        requires waits { IsSome (awaited_in self.old.claims t) }
        requires stands { IsSome (place_in w.old t) }
        ensures chain { self.new ≡ with_claim t (waiting_for None) self.old }
        ensures changes { Changes self.old self.new (left t w.old) w.new result }
    {
        end_wait(&mut self.claims, &self.mutexes, &mut self.exec, w, t)
    }

    /// The thread, which waits for no mutex, owns the mutex, which was free. No other priority changes than its own.
    #[inline(always)]
    pub fn take(&mut self, w: &mut Waits, k: ObjId, t: Tid) -> Option<Moved>
        requires known { t < length self.old.claims }
        requires mutex { k < length self.old.mutexes }
        requires placed { IsPlaced self.old w.old }
        requires free { (mutex_at self.old k).owner ≡ None }
        requires waits_not { awaited_in self.old.claims t ≡ None }
        ensures chain { self.new ≡ with_mutex k (taken_by t) self.old }
        ensures changes { Changes self.old self.new w.old w.new result }
        ensures alone { IfSome result (λ m. m.thread ≡ t) }
    {
        take(&self.claims, &mut self.mutexes, &mut self.exec, w, k, t)
    }

    /// The thread, which waits for no mutex, owns the mutex where it is plainly free. The answer is whether it is. No priority changes.
    #[inline(always)]
    pub fn take_at_once(&mut self, w: &Waits, k: ObjId, t: Tid) -> bool
        requires known { t < length self.old.claims }
        requires mutex { k < length self.old.mutexes }
        requires placed { IsPlaced self.old w.now }
        requires waits_not { awaited_in self.old.claims t ≡ None }
        ensures value { result ≡ is_plainly_free (mutex_at self.old k) (best_of (wait_obj.Mutex k) w.now) }
        ensures chain { self.new ≡ with_mutex k (taken_if result t) self.old }
        ensures same { SameExec self.old self.new }
    {
        take_at_once(&self.claims, &mut self.mutexes, &self.exec, w, k, t)
    }

    /// Whether the mutex lends nothing and has no ceiling, its owner has its assigned priority, and the thread waits for it.
    /// The contract lets it answer no more often.
    #[inline(always)]
    pub fn may_pass(&self, k: ObjId, owner: Tid, t: Tid) -> bool
        requires known { t < length self.now.claims }
        requires mutex { k < length self.now.mutexes }
        requires owned { (mutex_at self.now k).owner ≡ Some owner }
        ensures { result ≡ true → MayPass self.now k owner t }
    {
        may_pass(&self.claims, &self.mutexes, &self.exec, k, owner, t)
    }

    /// The mutex goes from its owner to the thread, which waits for it. No priority changes.
    #[inline(always)]
    pub fn pass(&mut self, w: &mut Waits, k: ObjId, owner: Tid, t: Tid)
        requires known { t < length self.old.claims }
        requires mutex { k < length self.old.mutexes }
        requires placed { IsPlaced self.old w.old }
        requires owned { (mutex_at self.old k).owner ≡ Some owner }
        requires may { MayPass self.old k owner t }
        ensures { Passes k t self.old self.new w.old w.new }
    {
        pass(
            &mut self.claims,
            &mut self.mutexes,
            &self.exec,
            w,
            k,
            owner,
            t,
        );
    }

    /// The mutex, which the thread owned, is free where the thread has its assigned priority. The answer is whether it has. No priority
    /// changes.
    #[inline(always)]
    pub fn release_at_once(&mut self, w: &Waits, k: ObjId, t: Tid) -> bool
        requires mutex { k < length self.old.mutexes }
        requires placed { IsPlaced self.old w.now }
        requires owned { (mutex_at self.old k).owner ≡ Some t }
        ensures value { result ≡ (exec_of self.old t == assigned_at self.old t) }
        ensures chain { self.new ≡ with_mutex k (freed_if result) self.old }
        ensures same { SameExec self.old self.new }
    {
        release_at_once(&self.claims, &mut self.mutexes, &self.exec, w, k, t)
    }

    /// The mutex, which the thread owned, is free.
    #[inline(always)]
    pub fn release(&mut self, w: &mut Waits, k: ObjId, t: Tid) -> Option<Moved>
        requires mutex { k < length self.old.mutexes }
        requires placed { IsPlaced self.old w.old }
        requires owned { (mutex_at self.old k).owner ≡ Some t }
        ensures chain { self.new ≡ with_mutex k freed self.old }
        ensures changes { Changes self.old self.new w.old w.new result }
    {
        release(&self.claims, &mut self.mutexes, &mut self.exec, w, k, t)
    }
}
