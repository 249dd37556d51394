//! A few threads or messages in order, kept as values.
ghost use Rattle.std.specs.Prelude.{◌≡◌, ◌<◌, ◌^◌, None, Some, length, slice_get, true};
ghost use Rattle.rules_lists.specs.Lists.{list_of};
ghost use Rattle.rules_machine.specs.Threads.{queue_at};
ghost use Rattle.rules_facts.specs.Fact.{on_list};
ghost use Rattle.rules_facts.specs.Queues.{messages_fact};
ghost use Rattle.kernel_seen.specs.FewSeen.{messages_in, small_message, threads_in};
ghost use Rattle.kernel_seen.specs.FactSeen.{IsOf, fact_seen};

use crate::fact_seen::FactSeen;
use kernel_state::Parts;
use words_numbers::{ObjId, Prio};

// How many are kept at most.
const MOST: usize = 8;

/// Room for 8 threads, by their numbers; `see_list` keeps at most seven.
#[derive(Clone, Copy)]
pub struct FewThreads {
    pub count: u32,
    pub threads: [u16; MOST],
}

/// A message whose value is small.
#[derive(Clone, Copy)]
pub struct SmallMessage {
    pub value: u32,
    pub priority: u8,
}

/// At most 8 messages of small values.
#[derive(Clone, Copy)]
pub struct FewMessages {
    pub count: u32,
    pub messages: [SmallMessage; MOST],
}

// ---- the threads on a list

/// Whether these threads and no other stand on the list of a priority, in that order.
#[inline(always)]
pub(crate) fn stand_on_list(parts: &Parts, p: Prio, few: &FewThreads) -> bool
    ensures { result ≡ true → list_of p parts.now.machine.lists ≡ threads_in few.now }
{
    let count = few.count as usize;
    if count > MOST {
        return false;
    }
    parts.is_list(p, &few.threads[..count])
}

/// What is seen of the list of a priority; nothing where eight or more stand on it.
pub fn see_list(parts: &Parts, p: Prio) -> FactSeen
    ensures list { IsOf (on_list p (list_of p parts.now.machine.lists)) (fact_seen result) }
    ensures range { p < 2 ^ 64 }
{
    let _ = p.get();
    let mut threads = [0; MOST];
    for place in 0..MOST as u32 {
        match parts.thread_on_list(p, place) {
            None => {
                return FactSeen::OnList(
                    p,
                    FewThreads {
                        count: place,
                        threads,
                    },
                );
            }
            Some(t) => threads[place as usize] = t.get(),
        }
    }
    FactSeen::Unseen
}

// ---- the messages of a queue

// Whether that message is at a place of a queue, in the order of arrival.
fn is_message_at(parts: &Parts, q: ObjId, place: u32, message: &SmallMessage) -> bool
    requires { q < length parts.now.machine.queues }
    ensures { result ≡ true → slice_get (queue_at parts.now.machine q).messages place ≡ Some (small_message message.now) }
{
    match parts.message(q, place) {
        Some(held) => held.priority() == message.priority
            && held.value() == u64::from(message.value),
        None => false,
    }
}

// Whether a queue holds so many messages at most.
fn is_end_of_queue(parts: &Parts, q: ObjId, place: u32) -> bool
    requires { q < length parts.now.machine.queues }
    ensures { result ≡ true → slice_get (queue_at parts.now.machine q).messages place ≡ None }
{
    match parts.message(q, place) {
        Some(_) => false,
        None => true,
    }
}

/// Whether a queue holds these messages and no other, in that order of arrival.
pub(crate) fn are_held(parts: &Parts, q: ObjId, few: &FewMessages) -> bool
    requires { q < length parts.now.machine.queues }
    ensures { result ≡ true → (queue_at parts.now.machine q).messages ≡ messages_in few.now }
{
    let count = few.count;
    if count as usize > MOST {
        return false;
    }
    for place in 0..count {
        if !is_message_at(parts, q, place, &few.messages[place as usize]) {
            return false;
        }
    }
    is_end_of_queue(parts, q, count)
}

/// What is seen of the messages of a queue; nothing where it holds more than are kept, or a large value.
pub(crate) fn see_messages(parts: &Parts, q: ObjId) -> FactSeen
    requires { q < length parts.now.machine.queues }
    ensures { IsOf (messages_fact parts.now.machine q) (fact_seen result) }
{
    let mut messages = [SmallMessage {
        value: 0,
        priority: 0,
    }; MOST];
    let mut count = 0;
    while count < MOST as u32 {
        match parts.message(q, count) {
            None => return FactSeen::Messages(q, FewMessages { count, messages }),
            Some(held) => {
                if held.value() > u64::from(u32::MAX) {
                    return FactSeen::Unseen;
                }
                messages[count as usize] = SmallMessage {
                    value: held.value() as u32,
                    priority: held.priority(),
                };
                count += 1;
            }
        }
    }
    if is_end_of_queue(parts, q, count) {
        return FactSeen::Messages(q, FewMessages { count, messages });
    }
    FactSeen::Unseen
}
