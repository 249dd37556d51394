//! Each form of line against its literal, and sinks that fail.
ghost use Rattle.std.specs.Prelude.{◌≡◌, ◌≤◌, IfOk, length};

use parts_io::MemSink;
use parts_tracer::{Names, Tracer, line_len};
use std::alloc::{AllocError, Global};
use std::test::Fail;
use words_numbers::{Prio, Res, SigCode, Tick, Tid};
use words_trace::{BudgetView, CallName, Event, Report};

const LONGEST_NAME: &[u8] = b"abcdefghijklmnopqrstuvwxyz_01234";

const RETURNS: &str = "\
0 start a
0 dispatch a 1
0 idle
0 return a yield 0 0
0 return a lock EAGAIN 1
0 return a sem_wait EBUSY 2
0 return a timer_settime EDEADLK 3
0 return a clock_nanosleep EINTR 4
0 return a mq_timedreceive EINVAL 5
0 return a mq_send EMSGSIZE 6
0 return a sem_post EOVERFLOW 7
0 return a unlock EPERM 8
0 return a tkill ESRCH 9
0 return a timedwait ETIMEDOUT 10
";

const SIGNALS_AND_BUDGETS: &str = "\
0 deliver a rt0 USER 0
0 deliver a rt9 QUEUE 1
0 deliver a rt10 TIMER 2
0 deliver a rt31 MESGQ 3
0 activate a 4
0 exhaust a
0 plan a 3 10
0 refill a 3 4
";

const ENDS: &str = "\
0 cancel a
0 exit a
0 killed rt3
0 end
thread a ticks 4
thread a ticks 7 high 4 init 3 refilled 2 capacity 1
";

const LONGEST_OF_CALLS: &str = "\
3000000000000000000 dispatch abcdefghijklmnopqrstuvwxyz_01234 255
3000000000000000000 return abcdefghijklmnopqrstuvwxyz_01234 clock_nanosleep ETIMEDOUT 18446744073709551615
3000000000000000000 return abcdefghijklmnopqrstuvwxyz_01234 timer_getoverrun EOVERFLOW 18446744073709551615
3000000000000000000 deliver abcdefghijklmnopqrstuvwxyz_01234 rt255 TIMER 18446744073709551615
3000000000000000000 killed rt255
3000000000000000000 end
";

const LONGEST_OF_BUDGETS: &str = "\
3000000000000000000 activate abcdefghijklmnopqrstuvwxyz_01234 18446744073709551615
3000000000000000000 exhaust abcdefghijklmnopqrstuvwxyz_01234
3000000000000000000 plan abcdefghijklmnopqrstuvwxyz_01234 18446744073709551615 3000000000000000000
3000000000000000000 refill abcdefghijklmnopqrstuvwxyz_01234 18446744073709551615 18446744073709551615
thread abcdefghijklmnopqrstuvwxyz_01234 ticks 18446744073709551615 high 18446744073709551615 \
init 18446744073709551615 refilled 18446744073709551615 capacity 18446744073709551615
";

// The name of the one thread.
fn named(alloc: Global, name: &[u8]) -> Result<Names, AllocError>
    requires some { 1 ≤ length name.now }
    requires short { length name.now ≤ 32 }
    ensures { IfOk result (λ names. length names ≡ 1) }
{
    let mut names = Names::open(alloc, 1)?;
    names.set(Tid::default(), name);
    Ok(names)
}

fn room(alloc: Global) -> Result<MemSink, AllocError> {
    MemSink::open(alloc, 4096, Vec::new(alloc))
}

// Each of the following prints lines of some forms, and answers whether the tracer failed.
fn put_returns(names: &Names, sink: &mut MemSink) -> bool
    requires { length names.now ≡ 1 }
{
    let (t, now) = (Tid::default(), Tick::default());
    let mut tracer = Tracer::new(sink);
    tracer.put(now, &Event::Start(t), names);
    tracer.put(now, &Event::Dispatch(t, Prio::default()), names);
    tracer.put(now, &Event::Idle, names);
    let mut value = 0u64;
    for (call, res) in [
        (CallName::Yield, Res::Zero),
        (CallName::Lock, Res::Again),
        (CallName::SemWait, Res::Busy),
        (CallName::TimerSettime, Res::Deadlk),
        (CallName::ClockNanosleep, Res::Intr),
        (CallName::MqTimedreceive, Res::Inval),
        (CallName::MqSend, Res::Msgsize),
        (CallName::SemPost, Res::Overflow),
        (CallName::Unlock, Res::Perm),
        (CallName::Tkill, Res::Srch),
        (CallName::Timedwait, Res::Timedout),
    ] {
        tracer.put(now, &Event::Return(t, call, res, value), names);
        value = value.saturating_add(1);
    }
    tracer.failed()
}

fn put_deliveries(names: &Names, sink: &mut MemSink) -> bool
    requires { length names.now ≡ 1 }
{
    let (t, now) = (Tid::default(), Tick::default());
    let mut tracer = Tracer::new(sink);
    for (sig, code, value) in [
        (0, SigCode::User, 0),
        (9, SigCode::Queue, 1),
        (10, SigCode::Timer, 2),
        (31, SigCode::Mesgq, 3),
    ] {
        tracer.put(now, &Event::Deliver(t, sig, code, value), names);
    }
    tracer.failed()
}

// The lines of a server's thread at an instant: its budget, a replenishment of an amount at a tick, and its capacity.
fn put_budget(
    names: &Names,
    sink: &mut MemSink,
    now: Tick,
    capacity: u64,
    amount: u64,
    due: Tick,
) -> bool
    requires { length names.now ≡ 1 }
{
    let t = Tid::default();
    let mut tracer = Tracer::new(sink);
    tracer.put(now, &Event::Activate(t, capacity), names);
    tracer.put(now, &Event::Exhaust(t), names);
    tracer.put(now, &Event::Plan(t, amount, due), names);
    tracer.put(now, &Event::Refill(t, amount, capacity), names);
    tracer.failed()
}

fn put_ends(names: &Names, sink: &mut MemSink) -> bool
    requires { length names.now ≡ 1 }
{
    let (t, now) = (Tid::default(), Tick::default());
    let mut tracer = Tracer::new(sink);
    tracer.put(now, &Event::Cancel(t), names);
    tracer.put(now, &Event::Exit(t), names);
    tracer.put(now, &Event::Killed(3), names);
    tracer.put(now, &Event::End, names);
    tracer.failed()
}

fn put_longest(names: &Names, sink: &mut MemSink, highest: Prio, last: Tick) -> bool
    requires { length names.now ≡ 1 }
{
    let (t, most) = (Tid::default(), u64::MAX);
    let mut tracer = Tracer::new(sink);
    tracer.put(last, &Event::Dispatch(t, highest), names);
    for (call, res) in [
        (CallName::ClockNanosleep, Res::Timedout),
        (CallName::TimerGetoverrun, Res::Overflow),
    ] {
        tracer.put(last, &Event::Return(t, call, res, most), names);
    }
    tracer.put(last, &Event::Deliver(t, 255, SigCode::Timer, most), names);
    tracer.put(last, &Event::Killed(255), names);
    tracer.put(last, &Event::End, names);
    tracer.failed()
}

// The closing line of a thread.
fn put_report(names: &Names, sink: &mut MemSink, ticks: u64, budget: Option<BudgetView>) -> bool
    requires { length names.now ≡ 1 }
{
    let report = Report { ticks, budget };
    let mut tracer = Tracer::new(sink);
    tracer.put_report(Tid::default(), &report, names);
    tracer.failed()
}

#[test]
fn returns_of_each_answer(rt: HostRuntime) -> Result<(), Fail> {
    let names = named(rt.alloc(), b"a")?;
    let mut sink = room(rt.alloc())?;
    assert!(rt; !put_returns(&names, &mut sink));
    assert_eq!(rt; sink.text(), RETURNS.as_bytes());
    Ok(())
}

#[test]
fn signals_and_budgets(rt: HostRuntime) -> Result<(), Fail> {
    let names = named(rt.alloc(), b"a")?;
    let mut sink = room(rt.alloc())?;
    let ten = Tick::try_new(10).unwrap();
    assert!(rt; !put_deliveries(&names, &mut sink));
    assert!(rt; !put_budget(&names, &mut sink, Tick::default(), 4, 3, ten));
    assert_eq!(rt; sink.text(), SIGNALS_AND_BUDGETS.as_bytes());
    Ok(())
}

#[test]
fn ends_and_reports(rt: HostRuntime) -> Result<(), Fail> {
    let names = named(rt.alloc(), b"a")?;
    let mut sink = room(rt.alloc())?;
    assert!(rt; !put_ends(&names, &mut sink));
    assert!(rt; !put_report(&names, &mut sink, 4, None));
    let (high, init, refilled, capacity) = (4, 3, 2, 1);
    let budget = Some(BudgetView {
        high,
        init,
        refilled,
        capacity,
    });
    assert!(rt; !put_report(&names, &mut sink, 7, budget));
    assert_eq!(rt; sink.text(), ENDS.as_bytes());
    Ok(())
}

#[test]
fn the_longest_lines_of_calls(rt: HostRuntime) -> Result<(), Fail> {
    let names = named(rt.alloc(), LONGEST_NAME)?;
    let mut sink = room(rt.alloc())?;
    let (highest, last) = (
        Prio::try_new(255).unwrap(),
        Tick::try_new(Tick::LAST).unwrap(),
    );
    assert!(rt; !put_longest(&names, &mut sink, highest, last));
    assert_eq!(rt; sink.text(), LONGEST_OF_CALLS.as_bytes());
    Ok(())
}

#[test]
fn the_longest_lines_of_budgets(rt: HostRuntime) -> Result<(), Fail> {
    let names = named(rt.alloc(), LONGEST_NAME)?;
    let mut sink = room(rt.alloc())?;
    let (most, last) = (u64::MAX, Tick::try_new(Tick::LAST).unwrap());
    assert!(rt; !put_budget(&names, &mut sink, last, most, most, last));
    let budget = Some(BudgetView {
        high: most,
        init: most,
        refilled: most,
        capacity: most,
    });
    assert!(rt; !put_report(&names, &mut sink, most, budget));
    assert_eq!(rt; sink.text(), LONGEST_OF_BUDGETS.as_bytes());
    Ok(())
}

#[test]
fn the_length_of_the_longest_line(rt: HostRuntime) -> Result<(), Fail> {
    let names = named(rt.alloc(), LONGEST_NAME)?;
    let (call, res) = (CallName::ClockNanosleep, Res::Timedout);
    let longest = Event::Return(Tid::default(), call, res, u64::MAX);
    let last = Tick::try_new(Tick::LAST).unwrap();
    assert_eq!(rt; line_len(last, &longest, &names), 107);
    Ok(())
}

// Prints three lines to a sink whose write of this number fails, and answers whether the tracer failed.
fn failed_at(number: u64, names: &Names, sink: &mut MemSink) -> bool
    requires { length names.now ≡ 1 }
{
    let t = Tid::default();
    let mut tracer = Tracer::new(sink);
    tracer.put(Tick::default(), &Event::Start(t), names);
    tracer.put(Tick::default(), &Event::Exit(t), names);
    tracer.put_report(
        t,
        &Report {
            ticks: number,
            budget: None,
        },
        names,
    );
    tracer.failed()
}

// Whether this is written before the write of this number, which fails, and the tracer has failed where it should.
fn is_cut_off(alloc: Global, names: &Names, number: u64, text: &str) -> Result<bool, AllocError>
    requires { length names.now ≡ 1 }
{
    let mut sink = MemSink::open(alloc, 100, vec![in alloc; number; 1]?)?;
    let failed = failed_at(number, names, &mut sink);
    Ok(failed == (number < 4) && sink.text() == text.as_bytes())
}

#[test]
fn nothing_is_written_after_a_failure(rt: HostRuntime) -> Result<(), Fail> {
    let names = named(rt.alloc(), b"a")?;
    for (number, text) in [
        (1u64, ""),
        (2, "0 start a\n"),
        (3, "0 start a\n0 exit a\n"),
        (4, "0 start a\n0 exit a\nthread a ticks 4\n"),
    ] {
        assert!(rt;
            is_cut_off(rt.alloc(), &names, number, text)?,
            "write {number}"
        );
    }
    Ok(())
}
