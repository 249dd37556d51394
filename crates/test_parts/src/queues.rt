//! A queue for two messages.
ghost use Rattle.std.specs.Prelude.{◌≡◌, ◌∷◌, [], None, false, IfOk};
ghost use Rattle.rules_machine.specs.Declarations.{queues_of};

use crate::numbers::object;
use kernel_queues::{MessageQueue, Queues, Registration};
use std::alloc::{AllocError, Global};
use words_script::{Decl, Decls, Kind, Name, Script};

fn script(alloc: Global) -> Result<Script, AllocError>
    ensures { IfOk result (λ s. queues_of s ≡ record { depth = 2; longest = 8; is_nonblock = false; messages = []; registration = None } ∷ []) }
{
    let mut decls = Vec::new(alloc);
    let name = Name::try_new(b"commands").unwrap();
    let queue = Kind::Queue {
        depth: 2,
        max_len: 8,
        nonblock: false,
    };
    decls.push(Decl::Named(name, queue))?;
    Ok(Script {
        version: 1,
        quantum: 1,
        decls: Decls::new(decls),
    })
}

fn opened(alloc: Global) -> Result<Queues, AllocError>
    ensures { IfOk result (λ queues. queues ≡ record { depth = 2; longest = 8; is_nonblock = false; messages = []; registration = None } ∷ []) }
{
    let script = script(alloc)?;
    Queues::open(alloc, &script)
}

// The priority and the value of the message at a place.
fn held(queue: &MessageQueue, place: u32) -> Option<(u8, u64)> {
    let message = queue.nth(place)?;
    Some((message.priority(), message.value()))
}

// The signal and the value that are registered.
fn registered(queue: &MessageQueue) -> Option<(u8, u64)> {
    let registration = queue.registration()?;
    Some((registration.signal(), registration.value()))
}

#[test]
fn messages_of_a_higher_priority_come_first(rt: HostRuntime) {
    let mut queues = opened(rt.alloc()).expect(&rt, "memory");
    let q = object(0);
    queues.put(q, 3, 30);
    queues.put(q, 7, 70);
    let held = [held(queues.get(q), 1), held(queues.get(q), 2)];
    assert_eq!(rt; held, [Some((7, 70)), None]);
    let taken = [queues.take(q), queues.take(q), queues.take(q)];
    assert_eq!(rt; taken, [Some(70), Some(30), None]);
}

#[test]
fn a_queue_tells_its_room(rt: HostRuntime) {
    let mut queues = opened(rt.alloc()).expect(&rt, "memory");
    let q = object(0);
    let queue = queues.get(q);
    let told = [
        queue.is_empty(),
        queue.has_room(),
        queue.is_too_long(9),
        queue.is_nonblock(),
    ];
    assert_eq!(rt; told, [true, true, true, false]);
    queues.put(q, 3, 30);
    queues.put(q, 7, 70);
    assert!(rt; !queues.get(q).has_room());
    assert_eq!(rt; (queues.get(q).len(), queues.count()), (2, 1));
}

#[test]
fn a_registration_is_kept(rt: HostRuntime) {
    let mut queues = opened(rt.alloc()).expect(&rt, "memory");
    let q = object(0);
    queues.register(q, Some(Registration::new(5, 9)));
    assert_eq!(rt; registered(queues.get(q)), Some((5, 9)));
    queues.register(q, None);
    assert_eq!(rt; registered(queues.get(q)), None);
}
