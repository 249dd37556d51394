//! Owners and counts of mutexes, and who is served first.
ghost use Rattle.std.specs.Prelude.{◌≡◌, ◌==◌, ◌<◌, Bool, IfSome, Option, None, Some, length};
ghost use Rattle.rules_machine.specs.Mutexes.{freed, taken_by};
ghost use Rattle.rules_machine.specs.Priorities.{assigned_of, mutex_awaited_by};
ghost use Rattle.rules_machine.specs.State.{Wait};
ghost use Rattle.rules_machine.specs.Threads.{mutex_in, thread_in};
ghost use Rattle.rules_machine.specs.Waking.{woken};
ghost use Rattle.parts_waiters.specs.declared.WaitObj.TheVariants as wait_obj;
ghost use Rattle.parts_waiters.specs.Ties.{is_object, object_of};
ghost use Rattle.parts_owners.specs.Chains.{counted, freed_if, is_plainly_free, taken_if};
ghost use Rattle.kernel_table.specs.Table as table;
ghost use Rattle.kernel_table.specs.Table.{best_in, exec, with_mutex, with_thread};
ghost use Rattle.kernel_table.specs.Movers.{KeepsOthers, KeepsPriorities, MovesPriority, TellsMoved};

use crate::links::stop_awaiting;
use crate::movers::thread_of;
use crate::real_items::drop_wait;
use crate::table::Table;
use crate::times::{end_sleep, time_wait};
use parts_waiters::WaitObj;
use words_numbers::{ObjId, Res, Tid};

impl Table {
    /// The mutex is counted so often, with the same owner. No execution priority changes.
    pub fn set_count(&mut self, k: ObjId, n: u16)
        requires { k < length self.old.mutexes }
        ensures { KeepsPriorities (with_mutex k (counted n)) self.old self.new }
    {
        self.chain.set_count(k, n);
    }

    /// The thread, which awaits no mutex, owns the mutex, which was free. The answer is the thread, where it stands among no waiters and its
    /// execution priority changed, as none other did; else `None`.
    #[tactic(auto, using(crate::proofs::Ties::placed, crate::proofs::Ties::awaits_none))]
    pub fn take(&mut self, k: ObjId, t: Tid) -> Option<Tid>
        requires known { t < length self.old.threads }
        requires mutex { k < length self.old.mutexes }
        requires free { (mutex_in self.old.mutexes k).owner ≡ None }
        requires waits_not { mutex_awaited_by (thread_in self.old.threads t) ≡ None }
        ensures change { MovesPriority (with_mutex k (taken_by t)) self.old self.new result }
        ensures alone { IfSome result (λ u. u ≡ t) }
    {
        thread_of(self.chain.take(&mut self.waits, k, t))
    }

    /// The thread, which awaits no mutex, owns the mutex where it is plainly free. The answer is whether it is. No execution priority changes.
    #[inline(always)]
    #[tactic(auto, using(crate::proofs::Ties::placed, crate::proofs::Ties::awaits_none))]
    pub fn take_at_once(&mut self, k: ObjId, t: Tid) -> bool
        requires known { t < length self.old.threads }
        requires mutex { k < length self.old.mutexes }
        requires waits_not { mutex_awaited_by (thread_in self.old.threads t) ≡ None }
        ensures value { (passes : Wait → Bool) → ((w : Wait) → passes w ≡ is_object (wait_obj.Mutex k) (object_of w)) → result ≡ is_plainly_free (mutex_in self.old.mutexes k) (best_in self.old passes) }
        ensures change { KeepsPriorities (with_mutex k (taken_if result t)) self.old self.new }
    {
        self.waits.serve_by_the_rules();
        self.chain.take_at_once(&self.waits, k, t)
    }

    // It is free where the thread has its assigned priority. The answer is whether it has. No execution priority changes.
    #[inline(always)]
    #[tactic(auto, using(crate::proofs::Ties::placed))]
    fn release_at_once(&mut self, k: ObjId, t: Tid) -> bool
        requires mutex { k < length self.old.mutexes }
        requires owned { (mutex_in self.old.mutexes k).owner ≡ Some t }
        ensures value { result ≡ (exec self.old t == assigned_of (thread_in self.old.threads t)) }
        ensures change { KeepsPriorities (with_mutex k (freed_if result)) self.old self.new }
    {
        self.chain.owners_are_threads();
        self.chain.release_at_once(&self.waits, k, t)
    }

    /// The mutex, which the thread owned, is free. The answer is the one thread that stands among no waiters and whose execution priority
    /// changed; `None` exactly where there is none. Mostly that lowers nobody.
    #[inline(always)]
    #[tactic(auto, using(crate::proofs::LeftAlone::left_alone))]
    pub fn release(&mut self, k: ObjId, t: Tid) -> Option<Tid>
        requires mutex { k < length self.old.mutexes }
        requires owned { (mutex_in self.old.mutexes k).owner ≡ Some t }
        ensures { MovesPriority (with_mutex k freed) self.old self.new result }
    {
        if self.release_at_once(k, t) {
            return None;
        }
        self.release_in_full(k, t)
    }

    // It is free, and the priority of the thread follows.
    #[inline(never)]
    #[tactic(auto, using(crate::proofs::Ties::placed))]
    fn release_in_full(&mut self, k: ObjId, t: Tid) -> Option<Tid>
        requires mutex { k < length self.old.mutexes }
        requires owned { (mutex_in self.old.mutexes k).owner ≡ Some t }
        ensures { MovesPriority (with_mutex k freed) self.old self.new result }
    {
        thread_of(self.chain.release(&mut self.waits, k, t))
    }

    /// The mutex goes from its owner to a thread that wakes. The answers are the one thread that stands among no waiters and whose execution
    /// priority changed as the owner lost the mutex, and then as the other thread woke; beside that thread no other such one changed. Mostly
    /// nobody's does.
    #[inline(always)]
    #[tactic(auto, using(crate::proofs::Ties::placed))]
    pub fn hand_over(
        &mut self,
        k: ObjId,
        owner: Tid,
        t: Tid,
        res: Res,
        value: u64,
    ) -> (Option<Tid>, Option<Tid>)
        requires known { t < length self.old.threads }
        requires mutex { k < length self.old.mutexes }
        requires owned { (mutex_in self.old.mutexes k).owner ≡ Some owner }
        ensures table { self.new ≡ with_thread t (woken res value) (with_mutex k (taken_by t) self.old) }
        ensures released { TellsMoved self.old (with_mutex k freed self.old) result.0 }
        ensures woken { TellsMoved (with_mutex k freed self.old) (with_thread t (woken res value) (with_mutex k freed self.old)) result.1 }
        ensures others { KeepsOthers t result.0 result.1 self.old self.new }
    {
        if !self.chain.may_pass(k, owner, t) {
            return self.hand_over_any(k, owner, t, res, value);
        }
        self.chain.pass(&mut self.waits, k, owner, t);
        self.threads.get_mut(t).wake(res, value);
        end_sleep(&mut self.wheel, t);
        drop_wait(&mut self.real_waits, t);
        (None, None)
    }

    // The same of any mutex, whoever is raised or lowered by it. It is inlined, since one that inherits goes over as often.
    #[inline(always)]
    #[tactic(auto, using(crate::proofs::Ties::placed))]
    fn hand_over_any(
        &mut self,
        k: ObjId,
        owner: Tid,
        t: Tid,
        res: Res,
        value: u64,
    ) -> (Option<Tid>, Option<Tid>)
        requires known { t < length self.old.threads }
        requires mutex { k < length self.old.mutexes }
        requires owned { (mutex_in self.old.mutexes k).owner ≡ Some owner }
        ensures table { self.new ≡ with_thread t (woken res value) (with_mutex k (taken_by t) self.old) }
        ensures released { TellsMoved self.old (with_mutex k freed self.old) result.0 }
        ensures woken { TellsMoved (with_mutex k freed self.old) (with_thread t (woken res value) (with_mutex k freed self.old)) result.1 }
        ensures others { KeepsOthers t result.0 result.1 self.old self.new }
    {
        let released = self.chain.release(&mut self.waits, k, owner);
        let woken = stop_awaiting(&mut self.chain, &mut self.waits, t);
        self.chain.take(&mut self.waits, k, t);
        self.threads.get_mut(t).wake(res, value);
        time_wait(&mut self.wheel, t, None);
        drop_wait(&mut self.real_waits, t);
        (thread_of(released), thread_of(woken))
    }

    /// The thread that is served first of those that wait for the object; `None` exactly where nobody does.
    #[tactic(auto, using(crate::proofs::Served::best_is))]
    pub fn best(&self, object: WaitObj) -> Option<Tid>
        ensures { (passes : Wait → Bool) → ((w : Wait) → passes w ≡ is_object object (object_of w)) → result ≡ best_in self.now passes }
    {
        self.waits.serve_by_the_rules();
        self.waits.best(object)
    }
}
