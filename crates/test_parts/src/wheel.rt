//! Items that come and go.
ghost use Rattle.std.specs.Prelude.{◌≡◌, ◌≤◌, ◌*◌, ◌^◌};

use crate::numbers::tick;
use parts_wheel::Wheel;
use words_numbers::ItemId;

fn item(number: u32) -> ItemId
    ensures { result.number ≡ number }
{
    ItemId { number }
}

// The number of the item that is due, which is due no more.
fn popped(wheel: &mut Wheel, now: u64) -> Option<u32>
    requires now { now ≤ 2 * 10 ^ 18 }
    requires later { wheel.old.last ≤ now }
    ensures { wheel.new.last ≡ now }
{
    Some(wheel.pop_due(tick(now))?.number)
}

// The number of the item that is due, and stays armed.
fn first(wheel: &mut Wheel, now: u64) -> Option<u32>
    requires { now ≤ 2 * 10 ^ 18 }
    ensures { wheel.new.dues ≡ wheel.old.dues }
{
    Some(wheel.first_due(tick(now))?.number)
}

// The tick that is due next.
fn next(wheel: &Wheel) -> Option<u64> {
    Some(wheel.next()?.get())
}

#[test]
fn items_come_and_go(rt: HostRuntime) {
    let mut wheel = Wheel::open(rt.alloc(), 8).expect(&rt, "memory");
    wheel.arm(item(3), tick(5));
    wheel.arm(item(1), tick(70));
    wheel.arm(item(2), tick(2000000000000000000));
    assert_eq!(rt; next(&wheel), Some(5));
    let numbers = [
        popped(&mut wheel, 4),
        popped(&mut wheel, 70),
        popped(&mut wheel, 70),
        popped(&mut wheel, 70),
    ];
    assert_eq!(rt; numbers, [None, Some(1), Some(3), None]);
    assert_eq!(rt; next(&wheel), Some(2000000000000000000));
}

#[test]
fn items_stay_armed(rt: HostRuntime) {
    let mut wheel = Wheel::open(rt.alloc(), 8).expect(&rt, "memory");
    wheel.set_due(item(3), Some(tick(5)));
    wheel.set_due(item(1), Some(tick(70)));
    let numbers = [
        first(&mut wheel, 4),
        first(&mut wheel, 5),
        first(&mut wheel, 70),
        first(&mut wheel, 6),
    ];
    assert_eq!(rt; numbers, [None, Some(3), Some(1), Some(3)]);
    wheel.set_due(item(1), None);
    wheel.set_due(item(3), Some(tick(80)));
    let numbers = [first(&mut wheel, 71), first(&mut wheel, 80)];
    assert_eq!(rt; numbers, [None, Some(3)]);
}

// A tick that has passed may be due again.
#[test]
fn an_item_is_armed_late(rt: HostRuntime) {
    let mut wheel = Wheel::open(rt.alloc(), 8).expect(&rt, "memory");
    assert_eq!(rt; first(&mut wheel, 70), None);
    wheel.set_due(item(5), Some(tick(10)));
    assert_eq!(rt; next(&wheel), Some(10));
    assert_eq!(rt; first(&mut wheel, 70), Some(5));
}
