//! One message queue.
ghost use Rattle.std.specs.Prelude.{◌≡◌, ◌≤◌, ◌<◌, ◌==◌, [], None, true, not, nat_lt, length, slice_get, IfOk, IfSome};
ghost use Rattle.std.specs.List.{AllByRecursion};
ghost use Rattle.rules_machine.specs.State.{Message};
ghost use Rattle.rules_machine.specs.Queues.{has_room, registered, with_message};
ghost use Rattle.kernel_queues.specs.Queues.{next_value, without_next};

use crate::message::HeldMessage;
use crate::registration::Registration;
use parts_arrivals::Arrivals;
use parts_filled::filled;
use std::alloc::{AllocError, Global};
use std::marker::Model;

/// One message queue. Its room is in its nodes; the value of the message at node n is `values[n]`.
#[derive(Drop)]
pub struct MessageQueue {
    depth: u32,
    longest: u32,
    is_nonblock: bool,
    registration: Option<Registration>,
    // each message by its node, with its priority as the rank
    arrivals: Arrivals,
    values: Vec<u64>,
}

impl Model for MessageQueue {
    ghost use Rattle.std.specs.Prelude.{◌≡◌, length};
    ghost use Rattle.rules_machine.specs.State as machine;
    ghost use Rattle.kernel_queues.specs.Messages.{messages_of};

    ghost Value = { machine.Queue };

    ghost view = { λ q. record { depth = q.depth; longest = q.longest; is_nonblock = q.is_nonblock; messages = messages_of q.values.items q.arrivals.order; registration = q.registration } };

    ghost invariant = { λ q. (q.arrivals.nodes ≡ q.depth) × (length q.values.items ≡ q.depth) };
}

impl MessageQueue {
    // An empty queue without a registration; there is no memory for more than 65,536 messages.
    pub(crate) fn open(
        alloc: Global,
        depth: u32,
        longest: u32,
        is_nonblock: bool,
    ) -> Result<MessageQueue, AllocError>
        ensures { IfOk result (λ q. q ≡ record { depth = depth; longest = longest; is_nonblock = is_nonblock; messages = []; registration = None }) }
    {
        if depth > 65_536 {
            return Err(AllocError);
        }
        let arrivals = Arrivals::open(alloc, depth)?;
        let values = filled(alloc, depth as usize, 0)?;
        Ok(MessageQueue {
            depth,
            longest,
            is_nonblock,
            registration: None,
            arrivals,
            values,
        })
    }

    pub(crate) fn put(&mut self, priority: u8, value: u64)
        requires priority { priority < 32 }
        requires room { has_room self.old ≡ true }
        ensures { self.new ≡ with_message (record { priority = priority; value = value }) self.old }
    {
        let node = self.arrivals.enter(priority);
        self.values[node as usize] = value;
    }

    #[inline(always)]
    pub(crate) fn take(&mut self) -> Option<u64>
        ensures value { result ≡ next_value self.old }
        ensures rest { self.new ≡ without_next self.old }
        ensures room { IfSome result (λ _. has_room self.new ≡ true) }
    {
        if self.arrivals.highest().is_none() {
            return None;
        }
        self.take_in_full()
    }

    // The same, also where there is none.
    #[inline(never)]
    fn take_in_full(&mut self) -> Option<u64>
        ensures value { result ≡ next_value self.old }
        ensures rest { self.new ≡ without_next self.old }
        ensures room { IfSome result (λ _. has_room self.new ≡ true) }
    {
        let priority = self.arrivals.highest()?;
        let node = self.arrivals.first(priority).unwrap();
        self.arrivals.leave(node);
        Some(self.values[node as usize])
    }

    /// The message at a place in the order of arrival, from 0 on; it stays. `None` exactly where there are not so many.
    pub fn nth(&self, place: u32) -> Option<HeldMessage>
        ensures message { result ≡ slice_get self.now.messages place }
        ensures few { IfSome result (λ _. place < 65536) }
    {
        let (node, priority) = self.arrivals.nth(place)?;
        Some(HeldMessage::new(priority, self.values[node as usize]))
    }

    /// Costs nothing when it runs: the priority of each message is one from 0 to 31.
    pub fn know_priorities(&self)
        ensures { AllByRecursion (λ (m : Message). m.priority < 32) self.now.messages }
    {
        let _ = self.arrivals.len();
    }

    /// Costs nothing when it runs: it holds at most as many messages as it is deep.
    pub fn know_few(&self)
        ensures { length self.now.messages ≤ self.now.depth }
    {
        let _ = self.arrivals.len();
    }

    pub(crate) fn register(&mut self, registration: Option<Registration>)
        ensures { self.new ≡ registered registration self.old }
    {
        self.registration = registration;
    }

    /// The notification that is asked of it; `None` exactly where there is none.
    pub fn registration(&self) -> Option<Registration>
        ensures { result ≡ self.now.registration }
    {
        self.registration
    }

    /// Whether calls on it do not block.
    pub fn is_nonblock(&self) -> bool
        ensures { result ≡ self.now.is_nonblock }
    {
        self.is_nonblock
    }

    /// Whether one message more has room.
    pub fn has_room(&self) -> bool
        ensures { result ≡ has_room self.now }
    {
        self.arrivals.len() < self.depth
    }

    /// How many messages it holds.
    pub fn len(&self) -> u32
        ensures { result ≡ length self.now.messages }
    {
        self.arrivals.len()
    }

    /// Whether it has no message.
    pub fn is_empty(&self) -> bool
        ensures { result ≡ (length self.now.messages == 0) }
    {
        self.arrivals.len() == 0
    }

    /// Whether a message of this length is longer than those that it takes.
    pub fn is_too_long(&self, len: u32) -> bool
        ensures { result ≡ nat_lt self.now.longest len }
    {
        self.longest < len
    }
}
