//! A tracer prints the lines of a run, one write a line.
ghost use Rattle.std.specs.Prelude.{◌≡◌, ◌<◌, ◌≤◌, ◌∷◌, [], None, IsTrue, false, length};
ghost use Rattle.words_trace.specs.declared.event.Event.TheVariants as event;
ghost use Rattle.words_trace.specs.Text.{IsNamed, line, report_line};
ghost use Rattle.parts_tracer.specs.Printed.{Printed, outlet};
ghost use Rattle.parts_tracer.specs.Prints.{Prints};
ghost use Rattle.parts_tracer.specs.ShortLines.{AreWhole};
ghost use Rattle.parts_tracer.specs.Tells.{Tells};

use crate::Names;
use crate::common::{take_dispatch, take_return};
use crate::hundred::Hundred;
use crate::line::{EventLine, ReportLine};
use parts_io::{Line, Sink};
use words_numbers::{Prio, Res, Tick, Tid};
use words_trace::{CallName, Event, Report};

/// Prints to a sink until a write fails. Each line is one write, and no call takes memory.
#[derive(Drop)]
pub struct Tracer<'a, K> {
    sink: &'a mut K,
    failed: bool,
    hundred: Hundred,
}

impl<'a, K: Sink> Tracer<'a, K> {
    /// A tracer that has printed nothing yet.
    pub fn new(sink: &'a mut K) -> Tracer<'a, K>
        ensures same_reference { result.sink.ghost_name ≡ sink.entry.ghost_name }
        ensures fresh { result.failed ≡ false }
        ensures same_sink { result.sink.now ≡ sink.old }
    {
        Tracer {
            sink,
            failed: false,
            hundred: Hundred::new(),
        }
    }

    /// Whether a write of this tracer has failed. From then on it writes nothing more.
    pub fn failed(&self) -> bool
        ensures { result ≡ self.now.failed }
    {
        self.failed
    }

    // Whether nobody hears what is written.
    #[inline(always)]
    fn is_unheard(&self) -> bool
        ensures { IsTrue result → K.text self.now.sink.now ≡ None }
    {
        self.sink.discards()
    }

    /// Prints the line of an event, by one write. For a sink that discards it no line is made.
    pub fn put(&mut self, now: Tick, e: &Event, names: &Names)
        requires { IsNamed names.now e.now }
        ensures printed { Prints K.text K.faults self.old self.new (line names.now now e.now) }
        ensures told { Tells K.text K.faults names.now self.old self.new (record { time = now; event = e.now } ∷ []) }
    {
        if self.is_unheard() {
            return;
        }
        self.put_in_full(now, e, names);
    }

    /// Prints the line of a call that returned, as `put` does. Each way to it has its own functions, by a number in their types, so that
    /// they are inlined.
    #[inline(always)]
    pub fn put_return<const WAY: usize>(
        &mut self,
        now: Tick,
        t: Tid,
        call: CallName,
        res: Res,
        value: u64,
        names: &Names,
    )
        requires { t < length names.now }
        ensures printed { Prints K.text K.faults self.old self.new (line names.now now (event.Return t call res value)) }
        ensures told { Tells K.text K.faults names.now self.old self.new (record { time = now; event = event.Return t call res value } ∷ []) }
    {
        if self.is_unheard() {
            return;
        }
        if self.failed || !take_return(self.sink, &self.hundred, now, t, call, res, value, names) {
            self.put_return_in_full(now, t, call, res, value, names);
        }
    }

    // The same where the line is not made at once.
    #[inline(never)]
    fn put_return_in_full(
        &mut self,
        now: Tick,
        t: Tid,
        call: CallName,
        res: Res,
        value: u64,
        names: &Names,
    )
        requires { t < length names.now }
        ensures { Prints K.text K.faults self.old self.new (line names.now now (event.Return t call res value)) }
    {
        self.put_in_full(now, &Event::Return(t, call, res, value), names);
    }

    /// Prints the line of a dispatch, as `put` does.
    #[inline(never)]
    pub fn put_dispatch(&mut self, now: Tick, t: Tid, prio: Prio, names: &Names)
        requires { t < length names.now }
        ensures printed { Prints K.text K.faults self.old self.new (line names.now now (event.Dispatch t prio)) }
        ensures told { Tells K.text K.faults names.now self.old self.new (record { time = now; event = event.Dispatch t prio } ∷ []) }
    {
        if self.is_unheard() {
            return;
        }
        if self.failed || !take_dispatch(self.sink, &self.hundred, now, t, prio, names) {
            self.put_dispatch_in_full(now, t, prio, names);
        }
    }

    // The same where the line is not made at once.
    #[inline(never)]
    fn put_dispatch_in_full(&mut self, now: Tick, t: Tid, prio: Prio, names: &Names)
        requires { t < length names.now }
        ensures { Prints K.text K.faults self.old self.new (line names.now now (event.Dispatch t prio)) }
    {
        self.put_in_full(now, &Event::Dispatch(t, prio), names);
    }

    // Prints the line of any event, by one write, which mostly the sink takes at once.
    #[inline(never)]
    fn put_in_full(&mut self, now: Tick, e: &Event, names: &Names)
        requires { IsNamed names.now e.now }
        ensures { Prints K.text K.faults self.old self.new (line names.now now e.now) }
    {
        if !self.hundred.has(now.get()) {
            self.put_turned(now, e, names);
            return;
        }
        let line = EventLine::<0>::new(&self.hundred, now, e, names);
        if self.failed || !self.sink.take_line(line) {
            self.put_whenever(now, e, names);
        }
    }

    // The same of the first event of a hundred.
    #[inline(never)]
    fn put_turned(&mut self, now: Tick, e: &Event, names: &Names)
        requires { IsNamed names.now e.now }
        ensures { Prints K.text K.faults self.old self.new (line names.now now e.now) }
    {
        self.hundred.turn_to(now.get());
        self.put_whenever(now, e, names);
    }

    // Prints the line of any event, by one write, whether or not the sink takes it at once.
    #[inline(never)]
    fn put_whenever(&mut self, now: Tick, e: &Event, names: &Names)
        requires { IsNamed names.now e.now }
        ensures { Prints K.text K.faults self.old self.new (line names.now now e.now) }
    {
        let line = EventLine::<1>::new(&self.hundred, now, e, names);
        print(self.sink, &mut self.failed, line);
    }

    /// Prints the closing line of a thread, by one write.
    pub fn put_report(&mut self, t: Tid, report: &Report, names: &Names)
        requires { t < length names.now }
        ensures { Prints K.text K.faults self.old self.new (report_line names.now t report.now) }
    {
        print(
            self.sink,
            &mut self.failed,
            ReportLine::new(t, report, names),
        );
    }
}

// Writes a line, unless a write has failed.
#[inline(always)]
fn print<K: Sink, L: Line + Drop>(sink: &mut K, failed: &mut bool, line: L)
    requires whole { length (L.bytes line) ≤ 256 → AreWhole (L.bytes line) }
    ensures { Printed (outlet K.text K.faults failed.old sink.old) (outlet K.text K.faults failed.new sink.new) (L.bytes line) }
{
    if *failed {
        return;
    }
    match sink.write_line(line) {
        Ok(()) => {}
        Err(_) => *failed = true,
    }
}
