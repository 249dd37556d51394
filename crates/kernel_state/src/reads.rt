//! What can be read of all parts.
ghost use Rattle.std.specs.Prelude.{ℕ, [], ◌≡◌, ◌≤◌, ◌<◌, ◌-◌, IfSome, length, slice_get, true};
ghost use Rattle.std.specs.List.{AllByRecursion};
ghost use Rattle.rules_lists.specs.Lists.{list_of};
ghost use Rattle.rules_machine.specs.State as machine;
ghost use Rattle.rules_machine.specs.Threads.{queue_at, thread_at, timer_at};
ghost use Rattle.kernel_state.specs.Standing.{table_in};

use crate::parts::Parts;
use kernel_queues::{HeldMessage, MessageQueue};
use kernel_signals::SignalRecord;
use kernel_table::Table;
use kernel_threads::Thread;
use kernel_timers::Timer;
use parts_tracer::Names;
use words_numbers::{ObjId, Prio, Tid};

impl Parts {
    /// The names of the threads.
    #[inline(always)]
    pub fn names(&self) -> &Names
        ensures { result.now ≡ self.now.names }
    {
        &self.names
    }

    /// The threads, the mutexes and the timers as they stand.
    #[inline(always)]
    pub fn table(&self) -> &Table
        ensures { result.now ≡ table_in self.now.machine }
    {
        &self.table
    }

    /// A thread as it stands.
    pub fn thread(&self, t: Tid) -> &Thread
        requires { t < length self.now.names }
        ensures { result.now ≡ thread_at self.now.machine t }
    {
        self.table.thread(t)
    }

    /// A timer as it stands.
    pub fn timer(&self, k: ObjId) -> &Timer
        requires { k < length self.now.machine.timers }
        ensures { result.now ≡ timer_at self.now.machine k }
    {
        self.table.timer(k)
    }

    /// A message queue as it stands.
    pub fn queue(&self, q: ObjId) -> &MessageQueue
        requires { q < length self.now.machine.queues }
        ensures { result.now ≡ queue_at self.now.machine q }
    {
        self.queues.get(q)
    }

    /// The thread at a place of the list of this priority, from 0 on, the head first; `None` exactly where the list is not so long.
    pub fn thread_on_list(&self, p: Prio, place: u32) -> Option<Tid>
        ensures thread { result ≡ slice_get (list_of p self.now.machine.lists) place }
        ensures few { IfSome result (λ _. place < 65536) }
    {
        self.ready.nth(p, place)
    }

    /// Whether these threads and no other stand on the list of this priority, in that order, the head first.
    #[inline(always)]
    pub fn is_list(&self, p: Prio, threads: &[u16]) -> bool
        ensures same { result ≡ true → list_of p self.now.machine.lists ≡ threads.now }
        ensures only { list_of p self.now.machine.lists ≡ threads.now → result ≡ true }
    {
        self.ready.is_list(p, threads)
    }

    /// How many lists are empty from that of this priority on, the next lower ones behind it, of so many. The contract lets
    /// it tell fewer.
    pub fn empty_lists(&self, p: Prio, most: u32) -> u32
        requires { most ≤ p }
        ensures few { result ≤ most }
        ensures empty { (k : ℕ) → k < result → list_of (p - k) self.now.machine.lists ≡ [] }
    {
        self.ready.empty_from(p, most)
    }

    /// How many lists of runnable threads there are.
    pub fn list_count(&self) -> u8
        ensures count { result ≡ length self.now.machine.lists }
        ensures all { result ≡ 255 }
    {
        self.know_lists();
        255
    }

    /// How many mutexes there are.
    pub fn mutex_count(&self) -> usize
        ensures { result ≡ length self.now.machine.mutexes }
    {
        self.table.mutex_count()
    }

    /// How many semaphores there are.
    pub fn semaphore_count(&self) -> usize
        ensures { result ≡ length self.now.machine.semaphores }
    {
        self.semaphores.count()
    }

    /// How many message queues there are.
    pub fn queue_count(&self) -> usize
        ensures { result ≡ length self.now.machine.queues }
    {
        self.queues.count()
    }

    /// How many timers there are, at most 32.
    pub fn timer_count(&self) -> usize
        ensures value { result ≡ length self.now.machine.timers }
        ensures few { result ≤ 32 }
    {
        self.table.timer_count()
    }

    /// How many signals there are.
    pub fn signal_count(&self) -> usize
        ensures value { result ≡ length self.now.machine.actions }
        ensures all { result ≡ 32 }
    {
        self.actions.count()
    }

    /// The message of a queue at a place in the order of arrival, from 0 on; it stays. `None` exactly where the queue does not hold so
    /// many.
    pub fn message(&self, q: ObjId, place: u32) -> Option<HeldMessage>
        requires { q < length self.now.machine.queues }
        ensures message { result ≡ slice_get (queue_at self.now.machine q).messages place }
        ensures few { IfSome result (λ _. place < 65536) }
        ensures priorities { AllByRecursion (λ (m : machine.Message). m.priority < 32) (queue_at self.now.machine q).messages }
    {
        let queue = self.queues.get(q);
        queue.know_priorities();
        queue.nth(place)
    }

    /// The pending record at a place in the order in which they became pending, from 0 on; it stays. `None` exactly where not so many are
    /// pending.
    pub fn pending_record(&self, place: u32) -> Option<SignalRecord>
        ensures value { result ≡ slice_get self.now.machine.pending place }
        ensures few { IfSome result (λ _. place < 65536) }
    {
        self.pending.nth(place)
    }

    /// Costs nothing when it runs: at most 112 records are pending.
    pub fn know_few_pending(&self)
        ensures { length self.now.machine.pending ≤ 112 }
    {
        self.pending.know_few();
    }
}
