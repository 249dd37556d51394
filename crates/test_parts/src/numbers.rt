//! Numbers in their ranges, as the tests say them.
ghost use Rattle.std.specs.Prelude.{◌≡◌, ◌≤◌, ◌<◌, ◌*◌, ◌^◌};

use words_numbers::{ObjId, Prio, Tick, Tid};

pub(crate) fn thread(n: u16) -> Tid
    requires { n < 256 }
    ensures { result ≡ n }
{
    Tid::try_new(n).unwrap()
}

pub(crate) fn object(n: u16) -> ObjId
    requires { n < 256 }
    ensures { result ≡ n }
{
    ObjId::try_new(n).unwrap()
}

pub(crate) fn prio(n: u8) -> Prio
    requires { 1 ≤ n }
    ensures { result ≡ n }
{
    Prio::try_new(n).unwrap()
}

pub(crate) fn tick(n: u64) -> Tick
    requires { n ≤ 2 * 10 ^ 18 }
    ensures { result ≡ n }
{
    Tick::try_new(n).unwrap()
}

#[test]
fn a_moment_some_ticks_later(rt: HostRuntime) {
    assert_eq!(rt; tick(5).plus(7), tick(12));
}
