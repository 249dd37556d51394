//! Worked texts of tasks: their responses, and their faults. The values were worked out by hand.
ghost use Rattle.std.specs.Prelude.{◌≡◌, ◌^◌, ◌≤◌};

use parts_steps::Steps;
use std::alloc::{AllocError, Global};
use std::marker::Brand;
use std::sync::ledger::{Blank, Ledger};
use tool_times::{RtaEnd, TaskFault, Tasks};

const THREE: &str = "task a 3 1 4 0\ntask b 2 2 6 0\ntask c 1 3 12 0\n";

const STARVES: &str = "task x 2 1 1 0\ntask y 1 1 1 0\n";

const FULL: &str = "task c 1 1 6 0\ntask b 2 1 3 0\ntask a 3 1 2 0\n";

const OVERLOADED: &str = "task a 3 2 3 0\ntask b 2 2 4 0\ntask c 1 1 100 0\n";

const ONE_PERIOD: &str = "task a 3 2 10 0\ntask b 2 3 10 0\ntask c 1 5 10 0\n";

const BLOCKED: &str = "task a 3 1 4 2\ntask b 2 1 4 0\n";

const GREATEST: &str = "task a 255 1000000 1000000000 1000000";

// A text, the number of a task, a bound, and the task's response.
static RESPONSES: [(&str, u16, u64, Option<u64>); 18] = [
    (THREE, 0, 12, Some(1)),
    (THREE, 1, 12, Some(3)),
    (THREE, 2, 12, Some(10)),
    (THREE, 2, 9, None),
    (STARVES, 0, 50, Some(1)),
    (STARVES, 1, 50, None),
    (STARVES, 1, 100_000, None),
    (FULL, 0, 6, Some(6)),
    (FULL, 0, 5, None),
    (OVERLOADED, 1, 50, Some(6)),
    (OVERLOADED, 2, 100_000, None),
    (ONE_PERIOD, 1, 10, Some(5)),
    (ONE_PERIOD, 2, 10, Some(10)),
    (BLOCKED, 0, 50, Some(3)),
    (BLOCKED, 1, 50, Some(2)),
    (THREE, 0, 0, None),
    (GREATEST, 0, 2_000_000, Some(2_000_000)),
    (GREATEST, 0, 1_999_999, None),
];

// A text, and the line and the kind of its fault.
static REFUSED: [(&str, u32, TaskFault); 16] = [
    ("", 1, TaskFault::NoTask),
    ("# none\n\n", 3, TaskFault::NoTask),
    ("task a 3 1 4 0\ntask b 3 1 4 0", 2, TaskFault::SamePriority),
    ("task a 3 0 4 0\n", 1, TaskFault::NumberRange),
    ("task a 0 1 4 0\n", 1, TaskFault::NumberRange),
    ("task a 3 1000001 4 0\n", 1, TaskFault::NumberRange),
    ("task a 3 1 0 0\n", 1, TaskFault::NumberRange),
    ("task a 3 1 1000000001 0\n", 1, TaskFault::NumberRange),
    ("task a 3 1 4 1000001\n", 1, TaskFault::NumberRange),
    (
        "task a 256 1 4 0\ntask b 256 1 4 0\n",
        1,
        TaskFault::NumberRange,
    ),
    (
        "task a 3 1 4 0\ntask a 3 1 4 0\n",
        2,
        TaskFault::DuplicateName,
    ),
    ("task A 3 1 4 0\n", 1, TaskFault::BadName),
    ("task A 3 x 4 0\n", 1, TaskFault::BadNumber),
    ("task a 256 1 4 0\ntask b 3 1 4\n", 2, TaskFault::WordCount),
    ("task a 3 1 4 0\n\ntusk\n", 3, TaskFault::UnknownWord),
    ("tusk\x01\n", 1, TaskFault::BadByte),
];

fn counted<L: Ledger>(tasks: &Tasks, k: u16, bound: u64, blank: Blank) -> Option<u64>
    requires name { blank.name ≡ L.name }
    requires parts { blank.parts ≡ L.parts }
    requires one { L.parts ≡ 1 }
{
    let mut steps = Steps::<L>::new(blank);
    if k < tasks.count() && bound <= 100_000_000 {
        tasks.response(k, bound, &mut steps)
    } else {
        None
    }
}

fn response(tasks: &Tasks, k: u16, bound: u64) -> Option<u64> {
    counted::<Brand>(tasks, k, bound, Blank::new(1))
}

// So many tasks of cost 1, with the priorities 1 to 255 and 1 again.
fn many(alloc: Global, count: u32) -> Result<String, AllocError> {
    let mut text = String::new(alloc);
    for i in 0..count {
        let line = format!(in alloc; "task t{i} {} 1 1000 0\n", i % 255 + 1)?;
        text.push_str(line.as_str())?;
    }
    Ok(text)
}

#[test]
fn worked_responses(rt: HostRuntime) {
    for &(text, k, bound, want) in &RESPONSES {
        let tasks = Tasks::open(rt.alloc(), text.as_bytes()).expect(&rt, "tasks");
        assert_eq!(rt; response(&tasks, k, bound), want, "{text} {k} {bound}");
    }
}

#[test]
fn names_in_order(rt: HostRuntime) {
    let tasks = Tasks::open(rt.alloc(), THREE.as_bytes()).expect(&rt, "three tasks");
    assert!(rt; tasks.count() == 3);
    assert_eq!(rt; tasks.name(0), b"a".as_slice());
    assert_eq!(rt; tasks.name(2), b"c".as_slice());
}

#[test]
fn refused_texts(rt: HostRuntime) {
    for &(text, line, kind) in &REFUSED {
        let end = Tasks::open(rt.alloc(), text.as_bytes()).err();
        assert_eq!(rt; end, Some(RtaEnd::Fault(line, kind)), "{text}");
    }
    assert_eq!(rt; TaskFault::SamePriority.number(), 17);
    assert_eq!(rt; TaskFault::NoTask.name(), "NoTask");
}

#[test]
fn as_many_as_priorities(rt: HostRuntime) {
    let text = many(rt.alloc(), 255).expect(&rt, "memory");
    assert!(rt; text.len() <= 67_108_864);
    let tasks = Tasks::open(rt.alloc(), text.as_bytes()).expect(&rt, "tasks");
    assert_eq!(rt; tasks.count(), 255);
    assert_eq!(rt; response(&tasks, 0, 1000), Some(255));
    assert_eq!(rt; response(&tasks, 254, 1000), Some(1));
}

#[test]
fn one_more_than_priorities(rt: HostRuntime) {
    let text = many(rt.alloc(), 100_000).expect(&rt, "memory");
    assert!(rt; text.len() <= 67_108_864);
    let end = Tasks::open(rt.alloc(), text.as_bytes()).err();
    assert_eq!(rt; end, Some(RtaEnd::Fault(256, TaskFault::SamePriority)));
}
