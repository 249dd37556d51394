//! A thread that starts by itself, and ends; and a timer that expires twice.
ghost use Rattle.std.specs.Prelude.{◌≡◌, ◌≤◌, ◌*◌, ◌^◌, IfOk, None, length};
ghost use Rattle.rules_machine.specs.Declarations.{named, threads_of, timer_kind, timers_of};

use crate::numbers::{object, thread, tick};
use kernel_table::Table;
use std::alloc::Global;
use std::test::Fail;
use words_numbers::{Item, Prio, Tid};
use words_script::{Body, Decl, Decls, Kind, Name, Policy, Script};

fn one_timer(alloc: Global) -> Result<Script, Fail>
    ensures threads { IfOk result (λ s. length (threads_of s) ≤ 256) }
    ensures timers { IfOk result (λ s. length (timers_of s) ≤ 32) }
{
    let name = Name::try_new(b"k".as_slice()).ok_or("no name")?;
    let mut decls = Vec::new(alloc);
    decls.push(Decl::Named(
        name,
        Kind::Timer {
            sig: 3,
            value: 9,
            real: false,
        },
    ))?;
    Ok(Script {
        version: 1,
        quantum: 10,
        decls: Decls::new(decls),
    })
}

// A thread that starts then.
fn thread_at(alloc: Global, start: u64) -> Result<Decl, Fail>
    requires { start ≤ 10 ^ 18 }
    ensures { IfOk result (λ d. named timer_kind d ≡ None) }
{
    let name = Name::try_new(b"a".as_slice()).ok_or("no name")?;
    let policy = Policy::Fifo(Prio::try_new(7).ok_or("no priority")?);
    let kind = Kind::Thread {
        policy,
        start: Some(start),
        body: Body::new(Vec::new(alloc)),
    };
    Ok(Decl::Named(name, kind))
}

// As many threads as a script may have, which start one after another from the last.
fn all_threads(alloc: Global) -> Result<Script, Fail>
    ensures threads { IfOk result (λ s. length (threads_of s) ≤ 256) }
    ensures timers { IfOk result (λ s. length (timers_of s) ≤ 32) }
{
    let mut decls = Vec::new(alloc);
    for number in 0..256u64 {
        decls.push(thread_at(alloc, 1000 - number)?)?;
    }
    Ok(Script {
        version: 1,
        quantum: 10,
        decls: Decls::new(decls),
    })
}

fn one_thread(alloc: Global) -> Result<Script, Fail>
    ensures threads { IfOk result (λ s. length (threads_of s) ≤ 256) }
    ensures timers { IfOk result (λ s. length (timers_of s) ≤ 32) }
{
    let mut decls = Vec::new(alloc);
    decls.push(thread_at(alloc, 5)?)?;
    Ok(Script {
        version: 1,
        quantum: 10,
        decls: Decls::new(decls),
    })
}

// A table in a box, whose drop is one call.
fn opened(alloc: Global, script: &Script) -> Result<Box<Table>, Fail>
    requires threads { length (threads_of script.now) ≤ 256 }
    requires timers { length (timers_of script.now) ≤ 32 }
{
    let table = Table::open(alloc, script)?;
    Ok(Box::new(alloc, table)?)
}

fn opened_with_timer(alloc: Global) -> Result<Box<Table>, Fail> {
    let script = one_timer(alloc)?;
    opened(alloc, &script)
}

fn opened_with_threads(alloc: Global) -> Result<Box<Table>, Fail> {
    let script = all_threads(alloc)?;
    opened(alloc, &script)
}

fn opened_with_thread(alloc: Global) -> Result<Box<Table>, Fail> {
    let script = one_thread(alloc)?;
    opened(alloc, &script)
}

// The tick that is due next, and the item that is due now.
fn due(table: &mut Table, now: u64) -> (Option<u64>, Option<Item>)
    requires { now ≤ 2 * 10 ^ 18 }
    ensures { table.new ≡ table.old }
{
    let next = table.next_due().map(|tick| tick.get());
    (next, table.first_due(tick(now)))
}

// Whether the thread is due to start, and no more once it has ended.
fn starts_and_ends(table: &mut Table, t: Tid, start: u64) -> bool
    requires { start ≤ 2 * 10 ^ 18 }
{
    if t.get() >= table.count() || due(table, start) != (Some(start), Some(Item::Start(t))) {
        return false;
    }
    table.end(t).is_none() && table.first_due(tick(start)).is_none()
}

#[test]
fn a_start_is_due_until_the_thread_ends(rt: HostRuntime) -> Result<(), Fail> {
    let mut table = opened_with_thread(rt.alloc())?;
    assert_eq!(rt; due(&mut table, 4), (Some(5), None));
    assert!(rt; starts_and_ends(&mut table, thread(0), 5));
    assert_eq!(rt; due(&mut table, 5), (None, None));
    Ok(())
}

#[test]
fn each_of_all_threads_starts(rt: HostRuntime) -> Result<(), Fail> {
    let mut table = opened_with_threads(rt.alloc())?;
    assert_eq!(rt; table.count(), 256);
    for number in 0..256u16 {
        let start = 745 + number as u64;
        assert!(rt; starts_and_ends(&mut table, thread(255 - number), start));
    }
    assert_eq!(rt; table.next_due(), None);
    Ok(())
}

#[test]
fn a_timer_is_due_again_after_its_interval(rt: HostRuntime) -> Result<(), Fail> {
    let mut table = opened_with_timer(rt.alloc())?;
    let k = object(0);
    assert!(rt; table.timer_count() > 0);
    table.set_timer(k, Some(tick(5)), false, 4);
    assert_eq!(rt; due(&mut table, 5), (Some(5), Some(Item::Timer(k))));
    table.arm_timer_again(k, tick(5));
    assert_eq!(rt; due(&mut table, 5), (Some(9), None));
    Ok(())
}

#[test]
fn an_overrun_is_told(rt: HostRuntime) -> Result<(), Fail> {
    let mut table = opened_with_timer(rt.alloc())?;
    let k = object(0);
    assert!(rt; table.timer_count() > 0);
    table.overrun_once_more(k);
    let before = table.timer(k).overrun();
    table.tell_overrun(k);
    assert_eq!(rt; (before, table.timer(k).overrun()), (0, 1));
    Ok(())
}
