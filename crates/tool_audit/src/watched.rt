//! What is kept of a server while the lines of a trace come.
ghost use Rattle.std.specs.Prelude.{◌≡◌, ◌≤◌, ◌||◌, true, None, IfNone};
ghost use Rattle.tool_check.specs.Lines.{seen};
ghost use Rattle.tool_audit.specs.Breach.{is_closing, is_closing_of};
ghost use Rattle.tool_audit.specs.Head.{in_numbers, in_ranges};
ghost use Rattle.tool_audit.specs.Marks.{mark_of};
ghost use Rattle.tool_audit.specs.Replay.{after_mark, breaks};
ghost use Rattle.tool_audit.specs.Rules.{if_broken};
ghost use Rattle.tool_check.specs.Small.{AreSmall, IsSmallLine};
ghost use Rattle.tool_audit.specs.Watch.{fits_end, watched, watched_after, watched_breaks};

use crate::NamedServer;
use crate::replay::Replay;
use crate::saying::Saying;
use std::marker::Model;
use tool_check::{Form, TraceLine};
use words_script::Name;

/// Whether a line of this form closes a trace.
pub(crate) fn is_closing(form: Form) -> bool
    ensures { result ≡ is_closing form }
{
    match form {
        Form::Thread | Form::Budget => true,
        _ => false,
    }
}

/// A server of which the lines are read: its account, and whether its closing line has come.
#[derive(Drop)]
pub(crate) struct ServerWatch {
    name: Name,
    account: Replay,
    closed: bool,
}

impl Model for ServerWatch {
    ghost use Rattle.tool_audit.specs.Watch.{Watched};

    ghost Value = { Watched };

    ghost use Rattle.tool_audit.specs.WatchView.{watched_of};

    ghost view = { watched_of };
}

impl ServerWatch {
    /// A server of which no line was read.
    pub(crate) fn new(server: NamedServer) -> ServerWatch
        requires small { in_numbers server.limits ≡ true }
        requires right { in_ranges server.limits ≡ true }
        ensures { result ≡ watched server }
    {
        ServerWatch {
            account: Replay::new(&server.limits),
            name: server.name,
            closed: false,
        }
    }

    /// Whether its closing line has come.
    pub(crate) fn is_closed(&self) -> bool
        ensures { result ≡ self.now.closed }
    {
        self.closed
    }

    // Whether it is a closing line of the thread.
    fn is_closed_by(&self, line: &TraceLine<'_>) -> bool
        ensures { result ≡ is_closing_of self.now.server.name (seen line.now) }
    {
        is_closing(line.form) && line.name == self.name.bytes()
    }

    // Whether a line is right, where it closes the thread.
    fn fits_end(&self, line: &TraceLine<'_>) -> bool
        requires { AreSmall (seen line.now).nums }
        ensures { result ≡ fits_end self.now (seen line.now) }
    {
        if !self.is_closed_by(line) {
            return true;
        }
        !self.closed && self.account.fits_end(line.form, line.nums.as_slice())
    }

    // A closing line comes, of whatever thread: the rule that it breaks.
    fn close(&mut self, line: &TraceLine<'_>) -> Option<u8>
        requires { AreSmall (seen line.now).nums }
        ensures rule { result ≡ if_broken (fits_end self.old (seen line.now)) 6 None }
        ensures closed { self.new ≡ record self.old { closed = self.old.closed || is_closing_of self.old.server.name (seen line.now) } }
    {
        let fits = self.fits_end(line);
        self.closed = self.closed || self.is_closed_by(line);
        if fits { None } else { Some(6) }
    }

    // Another line comes: the least rule that it breaks.
    fn hear(&mut self, line: &TraceLine<'_>) -> Option<u8>
        requires { IsSmallLine (seen line.now) }
        ensures rule { result ≡ breaks self.old.server.limits self.old.account (mark_of self.old.server.name (seen line.now)) }
        ensures after { IfNone result (self.new ≡ record self.old {
          account = after_mark self.old.server.limits self.old.account (mark_of self.old.server.name (seen line.now));
        }) }
    {
        let what = Saying::of(line, self.name.bytes());
        self.account.hear(line.time, what)
    }

    /// The least rule that a line breaks. A line that breaks none is taken in.
    pub(crate) fn line(&mut self, line: &TraceLine<'_>) -> Option<u8>
        requires { IsSmallLine (seen line.now) }
        ensures rule { result ≡ watched_breaks self.old (seen line.now) }
        ensures after { IfNone result (self.new ≡ watched_after (seen line.now) self.old) }
    {
        if is_closing(line.form) {
            self.close(line)
        } else {
            self.hear(line)
        }
    }
}
