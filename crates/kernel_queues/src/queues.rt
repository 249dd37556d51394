//! The queues by their numbers.
ghost use Rattle.std.specs.Prelude.{◌≡◌, ◌<◌, true, length, IfOk, IfSome};
ghost use Rattle.rules_machine.specs.Declarations.{queues_of};
ghost use Rattle.rules_machine.specs.Queues.{has_room, registered, with_message};
ghost use Rattle.kernel_queues.specs.Queues.{next_value, queue_in, with_queue, without_next};

use crate::open::open_queues;
use crate::queue::MessageQueue;
use crate::registration::Registration;
use std::alloc::{AllocError, Global};
use std::marker::Model;
use words_numbers::ObjId;
use words_script::Script;

/// The message queues of a script, by their numbers in the order of declaration.
#[derive(Drop)]
pub struct Queues {
    items: Vec<MessageQueue>,
}

impl Model for Queues {
    ghost use Rattle.std.specs.Prelude.{List};
    ghost use Rattle.rules_machine.specs.State as machine;

    ghost Value = { List machine.Queue };

    ghost view = { λ q. q.items.items };
}

impl Queues {
    /// The queues that the script declares, empty and without registrations, with all the room that they will need. `Err`
    /// also where a queue is to hold more than 65,536 messages.
    pub fn open(alloc: Global, script: &Script) -> Result<Queues, AllocError>
        ensures { IfOk result (λ queues. queues ≡ queues_of script.now) }
    {
        let items = open_queues(alloc, script)?;
        Ok(Queues { items })
    }

    /// How many queues there are.
    pub fn count(&self) -> usize
        ensures { result ≡ length self.now }
    {
        self.items.len()
    }

    /// A queue as it stands.
    pub fn get(&self, q: ObjId) -> &MessageQueue
        requires { q < length self.now }
        ensures { result.now ≡ queue_in self.now q }
    {
        &self.items[q.get() as usize]
    }

    /// A message of this priority, 0 to 31, enters the queue as its youngest.
    pub fn put(&mut self, q: ObjId, priority: u8, value: u64)
        requires known { q < length self.old }
        requires priority { priority < 32 }
        requires room { has_room (queue_in self.old q) ≡ true }
        ensures { self.new ≡ with_queue q (with_message (record { priority = priority; value = value })) self.old }
    {
        self.items[q.get() as usize].put(priority, value);
    }

    /// The value of the next message, the oldest of the greatest priority, which leaves the queue: then there is room for another. None
    /// exactly where the queue is empty, and then nothing changes.
    #[inline(always)]
    pub fn take(&mut self, q: ObjId) -> Option<u64>
        requires { q < length self.old }
        ensures value { result ≡ next_value (queue_in self.old q) }
        ensures rest { self.new ≡ with_queue q without_next self.old }
        ensures room { IfSome result (λ _. has_room (queue_in self.new q) ≡ true) }
    {
        self.items[q.get() as usize].take()
    }

    /// The registration becomes this one, or with None there is none.
    pub fn register(&mut self, q: ObjId, registration: Option<Registration>)
        requires { q < length self.old }
        ensures { self.new ≡ with_queue q (registered registration) self.old }
    {
        self.items[q.get() as usize].register(registration);
    }
}
