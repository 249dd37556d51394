//! Message queues: what they hold, who waits for them, and the notification that is asked of each.
ghost use Rattle.std.specs.Prelude.{◌≡◌, ◌<◌, IfSome, length, option_map, true};
ghost use Rattle.std.specs.List.{list_any};
ghost use Rattle.rules_machine.specs.Lists.{is};
ghost use Rattle.rules_machine.specs.Queues.{has_room, message_of as message_in_wait, registered, waits_to_receive, waits_to_send, with_message};
ghost use Rattle.rules_machine.specs.State as machine;
ghost use Rattle.rules_machine.specs.Threads.{is_blocked, queue_at, thread_at};
ghost use Rattle.rules_machine.specs.Turns.{changes_queue};
ghost use Rattle.rules_machine.specs.Waiters.{Waiter, best_waiter};
ghost use Rattle.kernel_queues.specs.Queues.{next_value, without_next};
ghost use Rattle.kernel_threads.specs.Plain.{message_of, wait_of};
ghost use Rattle.kernel_state.specs.Kernel.{after};
ghost use Rattle.kernel_state.specs.Messages.{waiting_message};

use crate::parts::Parts;
use kernel_queues::Registration;
use kernel_threads::{Message, Wait};
use parts_waiters::WaitObj;
use words_numbers::{ObjId, Tid};

// The message that a wait is for room for; for another wait one of priority 0 and value 0.
fn message_in(wait: &Wait) -> Message
    ensures { message_of result ≡ message_in_wait (wait_of wait.now) }
{
    match wait {
        Wait::Room(_, message) => *message,
        _ => Message {
            priority: 0,
            value: 0,
        },
    }
}

impl Parts {
    /// A message of this priority, 0 to 31, enters the queue as its youngest.
    pub fn put_message(&mut self, q: ObjId, priority: u8, value: u64)
        requires known { q < length self.old.machine.queues }
        requires priority { priority < 32 }
        requires room { has_room (queue_at self.old.machine q) ≡ true }
        ensures { self.new ≡ after (changes_queue q (with_message (record { priority = priority; value = value }))) self.old }
    {
        self.queues.put(q, priority, value);
    }

    /// The value of the next message, the oldest of the greatest priority, which leaves the queue: then there is room for another. `None`
    /// exactly where the queue is empty, and then nothing changes.
    #[inline(always)]
    pub fn take_message(&mut self, q: ObjId) -> Option<u64>
        requires { q < length self.old.machine.queues }
        ensures value { result ≡ next_value (queue_at self.old.machine q) }
        ensures state { self.new ≡ after (changes_queue q without_next) self.old }
        ensures room { IfSome result (λ _. has_room (queue_at self.new.machine q) ≡ true) }
    {
        self.queues.take(q)
    }

    /// The notification that is asked of the queue becomes this one, or with `None` there is none.
    pub fn register(&mut self, q: ObjId, registration: Option<Registration>)
        requires { q < length self.old.machine.queues }
        ensures { self.new ≡ after (changes_queue q (registered registration)) self.old }
    {
        self.queues.register(q, registration);
    }

    /// Whether the last notification of the queue is still pending.
    pub fn is_notification_pending(&self, q: ObjId) -> bool
        ensures { result ≡ list_any (λ (r : machine.SignalRecord). is r.queue q) self.now.machine.pending }
    {
        self.pending.is_pending_from_queue(q)
    }

    /// The thread that is served first of those that wait for a message of the queue; `None` exactly where nobody does.
    pub fn best_receiver(&self, q: ObjId) -> Option<Tid>
        ensures value { result ≡ option_map (λ (w : Waiter). w.thread) (best_waiter self.now.machine (waits_to_receive q)) }
        ensures known { IfSome result (λ t. t < length self.now.names) }
        ensures blocked { IfSome result (λ t. is_blocked (thread_at self.now.machine t).status ≡ true) }
    {
        self.best_waiter(WaitObj::Receiver(q))
    }

    /// The thread that is served first of those that wait for room in the queue; `None` exactly where nobody does.
    pub fn best_sender(&self, q: ObjId) -> Option<Tid>
        ensures value { result ≡ option_map (λ (w : Waiter). w.thread) (best_waiter self.now.machine (waits_to_send q)) }
        ensures known { IfSome result (λ t. t < length self.now.names) }
        ensures blocked { IfSome result (λ t. is_blocked (thread_at self.now.machine t).status ≡ true) }
    {
        self.best_waiter(WaitObj::Sender(q))
    }

    /// The message of a thread that waits for room; of another thread one of priority 0 and value 0.
    #[tactic(auto, using(crate::proofs::InQueues::none_sends, crate::proofs::InQueues::some_sends))]
    pub fn waiting_message(&self, t: Tid) -> Message
        requires { t < length self.now.names }
        ensures { message_of result ≡ waiting_message self.now.machine t }
    {
        match self.thread(t).wait() {
            Some(wait) => message_in(&wait),
            None => message_in(&Wait::Time),
        }
    }
}
