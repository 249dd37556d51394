//! The audit of a trace.
ghost use Rattle.std.specs.Prelude.{◌≡◌, ◌≤◌, ◌∷◌, ◌++◌, [], List, ℕ, length, map, IfOk, IfErr, IfNone};
ghost use Rattle.std.specs.List.{list_all};
ghost use Rattle.script_lex.specs.Lines.{lines_of};
ghost use Rattle.tool_check.specs.Lines.{reading, seen};
ghost use Rattle.tool_audit.specs.Behind.{IsBehind, broken_at_end, broken_by_line};
ghost use Rattle.tool_audit.specs.Breach.{first_breach, least};
ghost use Rattle.tool_audit.specs.Ends.{IsOpened, IsRefusal};
ghost use Rattle.tool_audit.specs.Head.{read_head};
ghost use Rattle.tool_check.specs.Small.{IsSmallLine};
ghost use Rattle.tool_audit.specs.Server.{NamedServer};
ghost use Rattle.tool_audit.specs.Watch.{any_breaks, begun, fits_order, watch_after, watch_breach, watch_breaks, watch_lacks, watch_reading, watch_with, watched_after, Watched};

use crate::heads::{check_names, statements, watches};
use crate::watched::{ServerWatch, is_closing};
use crate::{AuditEnd, Breach};
use script_lex::Lines;
use std::alloc::Global;
use std::marker::Model;
use tool_check::{Form, TraceLine, read_line};

// The lesser of two rules.
fn least(a: Option<u8>, b: Option<u8>) -> Option<u8>
    ensures { result ≡ least a b }
{
    match a {
        None => b,
        Some(a) => match b {
            None => Some(a),
            Some(b) => Some(if b < a { b } else { a }),
        },
    }
}

// The least rule that a line breaks for one of these servers.
fn line_of_each(servers: &mut [ServerWatch], line: &TraceLine<'_>) -> Option<u8>
    requires { IsSmallLine (seen line.now) }
    ensures rule { result ≡ any_breaks servers.old (seen line.now) }
    ensures after { IfNone result (servers.new ≡ map (watched_after (seen line.now)) servers.old) }
{
    let mut found = None;
    for w in servers.iter_mut() {
        found = least(found, w.line(line));
    }
    found
}

// Whether each closing line has come.
fn all_closed(servers: &[ServerWatch]) -> bool
    ensures { result ≡ list_all (λ (w : Watched). w.closed) servers.now }
{
    servers.iter().all(|w| w.is_closed())
}

/// An audit of a trace: the servers that it is about, and what the lines so far say of them. Contracts see it as a `Watch`.
#[derive(Drop)]
pub struct Audit {
    ended: bool,
    time: u64,
    servers: Vec<ServerWatch>,
}

impl Model for Audit {
    ghost use Rattle.tool_audit.specs.Watch.{Watch};

    ghost Value = { Watch };

    ghost view = { λ a. record { ended = a.ended; time = a.time; each = a.servers.items } };
}

impl Audit {
    /// An audit for the servers of a head of at most 67,108,864 bytes, in lines `server NAME PERIOD BUDGET MAX`.
    ///
    /// `Err(AuditEnd::Fault(line, kind))` comes exactly where the head has a fault: it is the least of all its faults, by phase, then line,
    /// then number. In the first phase each line is read by itself, in the second no name may stand twice, in the third the numbers are
    /// at most 10^18, there are at most 256 servers, and each has a budget of 1 up to its period and 1 to 16 pending replenishments at
    /// most. `AuditEnd::OutOfMemory` may come for any head, and says nothing of it. A head without lines names no server.
    pub fn open(alloc: Global, head: &[u8]) -> Result<Audit, AuditEnd>
        requires { length head.now ≤ 67_108_864 }
        ensures opened { IfOk result (λ a. IsOpened a (read_head head.now)) }
        ensures refusal { IfErr result (λ e. IsRefusal e (read_head head.now)) }
    {
        let statements = statements(alloc, head)?;
        check_names(alloc, statements.as_slice())?;
        let servers = watches(alloc, statements.as_slice())?;
        Ok(Audit {
            ended: false,
            time: 0,
            servers,
        })
    }

    // Whether a line stands where it may: times do not fall, and behind the `end` there are closing lines alone.
    fn fits_order(&self, line: &TraceLine<'_>) -> bool
        ensures { result ≡ fits_order self.now (seen line.now) }
    {
        if is_closing(line.form) {
            self.ended
        } else {
            !self.ended && self.time <= line.time
        }
    }

    // The least rule that a line breaks, as it is read.
    fn take(&mut self, line: &TraceLine<'_>) -> Option<u8>
        requires { IsSmallLine (seen line.now) }
        ensures rule { result ≡ watch_breaks self.old (seen line.now) }
        ensures after { IfNone result (self.new ≡ watch_after (seen line.now) self.old) }
    {
        if !self.fits_order(line) {
            return Some(1);
        }
        let rule = line_of_each(self.servers.as_mut_slice(), line);
        self.ended = self.ended || line.form == Form::End;
        self.time = if is_closing(line.form) {
            self.time
        } else {
            line.time
        };
        rule
    }

    fn read(&mut self, bytes: &[u8]) -> Option<u8>
        ensures rule { result ≡ watch_reading self.old (reading bytes.now) }
        ensures after { IfNone result (self.new ≡ watch_with (reading bytes.now) self.old) }
    {
        match read_line(bytes) {
            None => Some(1),
            Some(line) => self.take(&line),
        }
    }

    /// The least rule, 1 to 6, that the next line of a trace breaks, without its line end; `None` exactly where it breaks none. It takes no
    /// memory. Once a rule was broken, nothing is said of the answers to further lines.
    #[tactic(auto, using(crate::proofs::Behind::line_counted, crate::proofs::Behind::line_taken))]
    pub fn line(&mut self, bytes: &[u8]) -> Option<u8>
        // The rule is counted over all lines that were taken in.
        ensures counted { (servers : List NamedServer) (before : List (List ℕ)) → IsBehind servers before self.old
            → result ≡ broken_by_line servers before bytes.now }
        ensures behind { (servers : List NamedServer) (before : List (List ℕ)) → IsBehind servers before self.old
            → IfNone result (IsBehind servers (before ++ bytes.now ∷ []) self.new) }
        ensures rule { result ≡ watch_reading self.old (reading bytes.now) }
        ensures after { IfNone result (self.new ≡ watch_with (reading bytes.now) self.old) }
    {
        self.read(bytes)
    }

    /// The least rule that is broken where no line comes any more: 1 without an `end` line, 6 where a closing line is missing.
    #[tactic(auto, using(crate::proofs::Behind::end_counted))]
    pub fn finish(&self) -> Option<u8>
        ensures counted { (servers : List NamedServer) (before : List (List ℕ)) → IsBehind servers before self.now
            → result ≡ broken_at_end servers before }
        ensures rule { result ≡ watch_lacks self.now }
    {
        self.lacks()
    }

    fn lacks(&self) -> Option<u8>
        ensures { result ≡ watch_lacks self.now }
    {
        if !self.ended {
            Some(1)
        } else if !all_closed(self.servers.as_slice()) {
            Some(6)
        } else {
            None
        }
    }

    /// The first breach of a trace of at most 67,108,864 bytes, each of whose lines is judged by itself and those before it; `None` exactly
    /// where it breaks no rule. It takes no memory, and time in proportion to the bytes and to the lines times the servers.
    #[tactic(auto, using(crate::proofs::ClosingTimes::first_breach_watched))]
    pub fn first_breach(&mut self, trace: &[u8]) -> Option<Breach>
        requires { length trace.now ≤ 67_108_864 }
        ensures found { result ≡ watch_breach self.old 1 (map reading (lines_of trace.now)) }
        ensures counted { (servers : List NamedServer) → self.old ≡ begun servers → result ≡ first_breach servers trace.now }
    {
        let mut lines = Lines::new(trace);
        while let Some(line) = lines.next_line() {
            if let Some(rule) = self.line(line.bytes) {
                return Some(Breach {
                    line: line.number,
                    rule,
                });
            }
        }
        match self.finish() {
            None => None,
            Some(rule) => Some(Breach {
                line: lines.next_number(),
                rule,
            }),
        }
    }
}
