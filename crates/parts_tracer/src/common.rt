//! The lines of the commonest events, which are made without a call.
ghost use Rattle.std.specs.Prelude.{◌≡◌, ◌≤◌, ◌<◌, IsTrue, false, length};
ghost use Rattle.std.specs.Io.KnownBytes.{Appends};
ghost use Rattle.words_numbers.specs.declared.res.Res.TheVariants as res;
ghost use Rattle.words_trace.specs.declared.event.Event.TheVariants as event;
ghost use Rattle.words_trace.specs.Text.{line};

use crate::Names;
use crate::hundred::Hundred;
use crate::words::{place_return, place_success, place_with_number};
use parts_io::{Line, Sink};
use std::marker::Model;
use words_numbers::{Prio, Res, Tick, Tid};
use words_trace::CallName;

/// Prints the line of a call that returned where its time shares digits with the one before, its value is short and the sink takes it at
/// once, and answers whether it did.
#[inline(always)]
pub(crate) fn take_return<K: Sink>(
    sink: &mut K,
    hundred: &Hundred,
    now: Tick,
    t: Tid,
    call: CallName,
    res: Res,
    value: u64,
    names: &Names,
) -> bool
    requires { t < length names.now }
    ensures taken { IsTrue result → Appends (K.text sink.old) (K.text sink.new) (line names.now now (event.Return t call res value)) }
    ensures short { IsTrue result → length (line names.now now (event.Return t call res value)) ≤ 256 }
    ensures kept { result ≡ false → sink.new ≡ sink.old }
    ensures no_fault { K.faults sink.new ≡ K.faults sink.old }
{
    if !hundred.has(now.get()) || value >= 100 {
        return false;
    }
    match res {
        Res::Zero if value == 0 => sink.take_line(SuccessLine::new(hundred, now, t, call, names)),
        _ => sink.take_line(ReturnLine::new(hundred, now, t, call, res, value, names)),
    }
}

/// The same of a dispatch.
#[inline(always)]
pub(crate) fn take_dispatch<K: Sink>(
    sink: &mut K,
    hundred: &Hundred,
    now: Tick,
    t: Tid,
    prio: Prio,
    names: &Names,
) -> bool
    requires { t < length names.now }
    ensures taken { IsTrue result → Appends (K.text sink.old) (K.text sink.new) (line names.now now (event.Dispatch t prio)) }
    ensures short { IsTrue result → length (line names.now now (event.Dispatch t prio)) ≤ 256 }
    ensures kept { result ≡ false → sink.new ≡ sink.old }
    ensures no_fault { K.faults sink.new ≡ K.faults sink.old }
{
    if !hundred.has(now.get()) || prio.get() >= 100 {
        return false;
    }
    sink.take_line(DispatchLine::new(hundred, now, t, prio, names))
}

// The line of a call that succeeded, with no value to tell. It is seen as its bytes.
#[derive(Drop)]
struct SuccessLine<'a> {
    hundred: &'a Hundred,
    time: Tick,
    thread: Tid,
    call: CallName,
    names: &'a Names,
}

impl<'a> Model for SuccessLine<'a> {
    ghost use Rattle.std.specs.Prelude.{List, ℕ, ◌<◌, length};
    ghost use Rattle.words_numbers.specs.declared.res.Res.TheVariants as res;
    ghost use Rattle.words_trace.specs.declared.event.Event.TheVariants as event;
    ghost use Rattle.words_trace.specs.Text.{line};

    ghost Value = { List ℕ };

    ghost view = { λ l. line l.names.now l.time (event.Return l.thread l.call res.Zero 0) };

    ghost invariant = { λ l. l.thread < length l.names.now };
}

impl<'a> SuccessLine<'a> {
    #[inline(always)]
    fn new(
        hundred: &'a Hundred,
        time: Tick,
        thread: Tid,
        call: CallName,
        names: &'a Names,
    ) -> SuccessLine<'a>
        requires { thread < length names.now }
        ensures { result ≡ line names.now time (event.Return thread call res.Zero 0) }
    {
        SuccessLine {
            hundred,
            time,
            thread,
            call,
            names,
        }
    }
}

impl<'a> Line for SuccessLine<'a> {
    ghost bytes = { λ l. l };

    #[inline(always)]
    fn place(self, buf: &mut [u8], at: usize) -> usize {
        let at = self.hundred.place(buf, at, self.time.get());
        place_success(buf, at, self.names, self.thread, self.call)
    }
}

// The line of a call that returned. It is seen as its bytes.
#[derive(Drop)]
struct ReturnLine<'a> {
    hundred: &'a Hundred,
    time: Tick,
    thread: Tid,
    call: CallName,
    res: Res,
    value: u64,
    names: &'a Names,
}

impl<'a> Model for ReturnLine<'a> {
    ghost use Rattle.std.specs.Prelude.{List, ℕ, ◌<◌, length};
    ghost use Rattle.words_trace.specs.declared.event.Event.TheVariants as event;
    ghost use Rattle.words_trace.specs.Text.{line};

    ghost Value = { List ℕ };

    ghost view = { λ l. line l.names.now l.time (event.Return l.thread l.call l.res l.value) };

    ghost invariant = { λ l. l.thread < length l.names.now };
}

impl<'a> ReturnLine<'a> {
    #[inline(always)]
    fn new(
        hundred: &'a Hundred,
        time: Tick,
        thread: Tid,
        call: CallName,
        res: Res,
        value: u64,
        names: &'a Names,
    ) -> ReturnLine<'a>
        requires { thread < length names.now }
        ensures { result ≡ line names.now time (event.Return thread call res value) }
    {
        ReturnLine {
            hundred,
            time,
            thread,
            call,
            res,
            value,
            names,
        }
    }
}

impl<'a> Line for ReturnLine<'a> {
    ghost bytes = { λ l. l };

    #[inline(always)]
    fn place(self, buf: &mut [u8], at: usize) -> usize {
        let at = self.hundred.place(buf, at, self.time.get());
        place_return(
            buf,
            at,
            self.names,
            self.thread,
            self.call,
            self.res,
            self.value,
        )
    }
}

// The line of a dispatch. It is seen as its bytes.
#[derive(Drop)]
struct DispatchLine<'a> {
    hundred: &'a Hundred,
    time: Tick,
    thread: Tid,
    prio: Prio,
    names: &'a Names,
}

impl<'a> Model for DispatchLine<'a> {
    ghost use Rattle.std.specs.Prelude.{List, ℕ, ◌<◌, length};
    ghost use Rattle.words_trace.specs.declared.event.Event.TheVariants as event;
    ghost use Rattle.words_trace.specs.Text.{line};

    ghost Value = { List ℕ };

    ghost view = { λ l. line l.names.now l.time (event.Dispatch l.thread l.prio) };

    ghost invariant = { λ l. l.thread < length l.names.now };
}

impl<'a> DispatchLine<'a> {
    #[inline(always)]
    fn new(
        hundred: &'a Hundred,
        time: Tick,
        thread: Tid,
        prio: Prio,
        names: &'a Names,
    ) -> DispatchLine<'a>
        requires { thread < length names.now }
        ensures { result ≡ line names.now time (event.Dispatch thread prio) }
    {
        DispatchLine {
            hundred,
            time,
            thread,
            prio,
            names,
        }
    }
}

impl<'a> Line for DispatchLine<'a> {
    ghost bytes = { λ l. l };

    #[inline(always)]
    fn place(self, buf: &mut [u8], at: usize) -> usize {
        let at = self.hundred.place(buf, at, self.time.get());
        place_with_number(
            buf,
            at,
            b" dispatch ",
            self.names,
            self.thread,
            self.prio.get() as u64,
        )
    }
}
