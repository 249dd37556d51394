//! What can be asked of the threads and mutexes.
ghost use Rattle.std.specs.Prelude.{◌≡◌, ◌<◌, ◌≤◌, filter, length, ℕ};
ghost use Rattle.std.specs.List.{list_any};
ghost use Rattle.rules_machine.specs.Lists.{is};
ghost use Rattle.rules_machine.specs.Mutexes.{is_boosting};
ghost use Rattle.rules_machine.specs.State.{Mutex};
ghost use Rattle.rules_machine.specs.Servers.{has_run};
ghost use Rattle.rules_machine.specs.Threads.{mutex_in, thread_in};
ghost use Rattle.parts_owners.specs.Chains.{OwnersAreThreads, closes_cycle_in};
ghost use Rattle.rules_machine.specs.WellFormed.{IsPriority};
ghost use Rattle.rules_machine.specs.Priorities.{claims};
ghost use Rattle.kernel_table.specs.Table.{exec};

use crate::table::Table;
use kernel_threads::Thread;
use parts_owners::MutexState;
use words_numbers::{ObjId, Prio, Tid};

impl Table {
    pub fn count(&self) -> u16
        ensures value { result ≡ length self.now.threads }
        ensures few { result ≤ 256 }
    {
        self.threads.count()
    }

    pub fn thread(&self, t: Tid) -> &Thread
        requires { t < length self.now.threads }
        ensures { result.now ≡ thread_in self.now.threads t }
    {
        self.threads.get(t)
    }

    /// Whether that thread has an open run of its server; none has where there is no such thread.
    pub fn has_run(&self, t: Tid) -> bool
        ensures { result ≡ has_run (thread_in self.now.threads t).server }
    {
        self.threads.has_run(t)
    }

    pub fn mutex_count(&self) -> usize
        ensures { result ≡ length self.now.mutexes }
    {
        self.chain.mutex_count()
    }

    pub fn mutex(&self, k: ObjId) -> &MutexState
        requires { k < length self.now.mutexes }
        ensures { result.now ≡ mutex_in self.now.mutexes k }
    {
        self.chain.mutex(k)
    }

    /// The execution priority.
    #[tactic(auto, using(crate::proofs::Ties::exec_kept))]
    pub fn exec(&self, t: Tid) -> Prio
        requires { t < length self.now.threads }
        ensures { result ≡ exec self.now t }
    {
        self.chain.exec(t)
    }

    /// Whether the thread owns a mutex that can raise its priority.
    pub fn owns_boosting(&self, t: Tid) -> bool
        ensures { result ≡ list_any (λ (k : Mutex). is_boosting k.protocol) (filter (λ (k : Mutex). is k.owner t) self.now.mutexes) }
    {
        self.chain.owns_boosting(t)
    }

    /// How many mutexes the thread owns.
    pub fn owned_count(&self, t: Tid) -> usize
        ensures { result ≡ length (filter (λ (k : Mutex). is k.owner t) self.now.mutexes) }
    {
        self.chain.owned_count(t)
    }

    /// Costs nothing when it runs: each owner of a mutex is a thread.
    pub fn owners_are_threads(&self)
        ensures { OwnersAreThreads (claims self.now.threads) self.now.mutexes }
    {
        self.chain.owners_are_threads();
    }

    /// Costs nothing when it runs: each execution priority is in its range.
    #[tactic(auto, using(crate::proofs::Ties::exec_kept))]
    pub fn priorities_fit(&self)
        ensures { (t : ℕ) → t < length self.now.threads → IsPriority (exec self.now t) }
    {
        self.chain.priorities_fit();
    }

    /// Whether owners and their mutex waits lead from the mutex to the thread.
    pub fn closes_cycle(&self, t: Tid, k: ObjId) -> bool
        requires { k < length self.now.mutexes }
        ensures { result ≡ closes_cycle_in (claims self.now.threads) self.now.mutexes t k }
    {
        self.chain.closes_cycle(t, k)
    }
}
