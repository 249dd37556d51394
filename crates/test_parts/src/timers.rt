//! A timer of signal 5.
ghost use Rattle.std.specs.Prelude.{◌≡◌, ◌∷◌, [], false, None, IfOk};
ghost use Rattle.rules_machine.specs.Declarations.{timers_of};

use crate::numbers::{object, tick};
use kernel_timers::{Timer, Timers};
use std::alloc::{AllocError, Global};
use words_script::{Decl, Decls, Kind, Name, Script};

fn script(alloc: Global) -> Result<Script, AllocError>
    ensures { IfOk result (λ s. timers_of s ≡ record { signal = 5; value = 77; is_real = false; due = None; is_reading = false; interval = 0; extra = 0; overrun = 0 } ∷ []) }
{
    let mut decls = Vec::new(alloc);
    let name = Name::try_new(b"beat").unwrap();
    decls.push(Decl::Named(
        name,
        Kind::Timer {
            sig: 5,
            value: 77,
            real: false,
        },
    ))?;
    Ok(Script {
        version: 1,
        quantum: 1,
        decls: Decls::new(decls),
    })
}

fn opened(alloc: Global) -> Result<Timers, AllocError>
    ensures { IfOk result (λ timers. timers ≡ record { signal = 5; value = 77; is_real = false; due = None; is_reading = false; interval = 0; extra = 0; overrun = 0 } ∷ []) }
{
    let script = script(alloc)?;
    Timers::open(alloc, &script)
}

// The tick at which a timer is due, the ticks to it from tick 7, and the expiries that are told.
fn told(timer: &Timer) -> (Option<u64>, u64, u32) {
    let due = timer.due().map(|tick| tick.get());
    (due, timer.ticks_left(tick(7)), timer.overrun())
}

#[test]
fn a_timer_expires_again(rt: HostRuntime) {
    let mut timers = opened(rt.alloc()).expect(&rt, "memory");
    let k = object(0);
    timers.set_timer(k, Some(tick(10)), false, 4);
    assert_eq!(rt; told(timers.get(k)), (Some(10), 3, 0));
    timers.arm_again(k, tick(10));
    assert_eq!(rt; told(timers.get(k)), (Some(14), 7, 0));
    timers.set_timer(k, None, false, 0);
    assert_eq!(rt; told(timers.get(k)), (None, 0, 0));
}

#[test]
fn overruns_are_told_when_the_signal_is_accepted(rt: HostRuntime) {
    let mut timers = opened(rt.alloc()).expect(&rt, "memory");
    let k = object(0);
    let timer = timers.get(k);
    assert_eq!(rt; (timer.signal(), timer.value()), (5, 77));
    timers.overrun_once_more(k);
    timers.overrun_once_more(k);
    assert_eq!(rt; told(timers.get(k)), (None, 0, 0));
    timers.tell_overrun(k);
    assert_eq!(rt; told(timers.get(k)), (None, 0, 2));
    assert_eq!(rt; timers.count(), 1);
}
