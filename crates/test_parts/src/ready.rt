//! Three threads, and a fourth that is given the highest priority.
ghost use Rattle.std.specs.Prelude.{◌≡◌, ◌≤◌, ◌<◌};

use crate::numbers::{prio, thread};
use parts_ready::Ready;

fn to_tail(ready: &mut Ready, number: u16, priority: u8)
    requires thread { number < 256 }
    requires known { number < ready.old.threads }
    requires priority { 1 ≤ priority }
    ensures { ready.new.threads ≡ ready.old.threads }
{
    ready.to_tail(thread(number), prio(priority));
}

fn to_head(ready: &mut Ready, number: u16, priority: u8)
    requires thread { number < 256 }
    requires known { number < ready.old.threads }
    requires priority { 1 ≤ priority }
    ensures { ready.new.threads ≡ ready.old.threads }
{
    ready.to_head(thread(number), prio(priority));
}

// The number of the highest thread.
fn highest(ready: &Ready) -> Option<u16> {
    Some(ready.highest()?.get())
}

// The number of the thread at this place of the list of priority 5.
fn fifth(ready: &Ready, place: u32) -> Option<u16> {
    Some(ready.nth(prio(5), place)?.get())
}

// The priority of the thread of this number.
fn prio_of(ready: &Ready, number: u16) -> Option<u8>
    requires { number < 256 }
{
    Some(ready.prio_of(thread(number))?.get())
}

#[test]
fn threads_of_one_priority(rt: HostRuntime) {
    let mut ready = Ready::open(rt.alloc(), 4).expect(&rt, "memory");
    assert_eq!(rt; highest(&ready), None);
    to_tail(&mut ready, 0, 5);
    to_tail(&mut ready, 1, 5);
    to_head(&mut ready, 2, 5);
    let places = [
        highest(&ready),
        fifth(&ready, 0),
        fifth(&ready, 2),
        fifth(&ready, 3),
    ];
    assert_eq!(rt; places, [Some(2), Some(2), Some(1), None]);
    let same = [
        ready.is_list(prio(5), &[2, 0, 1]),
        ready.is_list(prio(5), &[2, 0]),
        ready.is_list(prio(5), &[2, 0, 1, 3]),
        ready.is_list(prio(5), &[2, 1, 0]),
        ready.is_list(prio(6), &[]),
    ];
    assert_eq!(rt; same, [true, false, false, false, true]);
}

#[test]
fn threads_of_several_priorities(rt: HostRuntime) {
    let mut ready = Ready::open(rt.alloc(), 4).expect(&rt, "memory");
    to_tail(&mut ready, 0, 64);
    to_head(&mut ready, 2, 65);
    to_tail(&mut ready, 3, 255);
    assert_eq!(rt; (highest(&ready), prio_of(&ready, 3)), (Some(3), Some(255)));
    to_head(&mut ready, 3, 1);
    assert_eq!(rt; highest(&ready), Some(2));
    ready.remove(thread(2));
    assert_eq!(rt; (highest(&ready), prio_of(&ready, 2)), (Some(0), None));
}

#[test]
fn as_many_threads_as_there_may_be(rt: HostRuntime) {
    let mut ready = Ready::open(rt.alloc(), 256).expect(&rt, "memory");
    to_tail(&mut ready, 255, 9);
    to_tail(&mut ready, 64, 9);
    to_tail(&mut ready, 0, 9);
    assert_eq!(rt; highest(&ready), Some(255));
    to_tail(&mut ready, 255, 9);
    assert_eq!(rt; highest(&ready), Some(64));
    ready.remove(thread(64));
    ready.remove(thread(0));
    assert_eq!(rt;
        (highest(&ready), prio_of(&ready, 255)),
        (Some(255), Some(9))
    );
}
