//! The lines of a trace, which are made where they are to stand.
ghost use Rattle.std.specs.Prelude.{◌≡◌, ◌≤◌, ◌<◌, length};
ghost use Rattle.words_trace.specs.Text.{IsNamed, line, report_line};

use crate::Names;
use crate::hundred::Hundred;
use crate::words::{place_event, place_report};
use parts_io::{LINE_ROOM, Line};
use std::marker::Model;
use words_numbers::{Tick, Tid};
use words_trace::{Event, Report};

/// How long the line of an event is, in bytes: at most 256, whatever its names and numbers.
pub fn line_len(now: Tick, e: &Event, names: &Names) -> usize
    requires { IsNamed names.now e.now }
    ensures length { result ≡ length (line names.now now e.now) }
    ensures short { result ≤ 256 }
{
    let hundred = Hundred::new();
    let mut buf = [0; LINE_ROOM];
    EventLine::<1>::new(&hundred, now, e, names).place(&mut buf, 0)
}

/// The line of an event. It is seen as its bytes. Each way to make it has its own functions, by a number in its type, so that what is done
/// most often is inlined.
#[derive(Drop)]
pub(crate) struct EventLine<'a, const WAY: usize> {
    hundred: &'a Hundred,
    time: Tick,
    event: &'a Event,
    names: &'a Names,
}

impl<'a, const WAY: usize> Model for EventLine<'a, WAY> {
    ghost use Rattle.std.specs.Prelude.{List, ℕ};
    ghost use Rattle.words_trace.specs.Text.{IsNamed, line};

    ghost Value = { List ℕ };

    ghost view = { λ l. line l.names.now l.time l.event.now };

    ghost invariant = { λ l. IsNamed l.names.now l.event.now };
}

impl<'a, const WAY: usize> EventLine<'a, WAY> {
    /// The line of an event at a time. Whichever the hundred is, the line is the same.
    pub(crate) fn new(
        hundred: &'a Hundred,
        time: Tick,
        event: &'a Event,
        names: &'a Names,
    ) -> EventLine<'a, WAY>
        requires { IsNamed names.now event.now }
        ensures { result ≡ line names.now time event.now }
    {
        EventLine {
            hundred,
            time,
            event,
            names,
        }
    }
}

impl<'a, const WAY: usize> Line for EventLine<'a, WAY> {
    ghost bytes = { λ l. l };

    #[inline(always)]
    fn place(self, buf: &mut [u8], at: usize) -> usize {
        let at = self.hundred.place(buf, at, self.time.get());
        place_event::<WAY>(buf, at, self.event, self.names)
    }
}

/// The closing line of a thread. It is seen as its bytes.
#[derive(Drop)]
pub(crate) struct ReportLine<'a> {
    thread: Tid,
    report: &'a Report,
    names: &'a Names,
}

impl<'a> Model for ReportLine<'a> {
    ghost use Rattle.std.specs.Prelude.{List, ℕ, ◌<◌, length};
    ghost use Rattle.words_trace.specs.Text.{report_line};

    ghost Value = { List ℕ };

    ghost view = { λ l. report_line l.names.now l.thread l.report.now };

    ghost invariant = { λ l. l.thread < length l.names.now };
}

impl<'a> ReportLine<'a> {
    /// The closing line of a thread.
    pub(crate) fn new(thread: Tid, report: &'a Report, names: &'a Names) -> ReportLine<'a>
        requires { thread < length names.now }
        ensures { result ≡ report_line names.now thread report.now }
    {
        ReportLine {
            thread,
            report,
            names,
        }
    }
}

impl<'a> Line for ReportLine<'a> {
    ghost bytes = { λ l. l };

    fn place(self, buf: &mut [u8], at: usize) -> usize {
        place_report(buf, at, self.thread, self.report, self.names)
    }
}
