//! What of a thread can be told.
ghost use Rattle.std.specs.Prelude.{◌≡◌, ◌≤◌, IfSome, length};
ghost use Rattle.rules_server.specs.Server.{ServerState};
ghost use Rattle.rules_machine.specs.Threads.{top_result, top_value};
ghost use Rattle.kernel_threads.specs.Plain.{status_of};

use crate::frame::Frame;
use crate::status::{Phase, Status};
use crate::thread::Thread;
use parts_server::Server;
use words_numbers::{ObjId, Res};
use words_script::Policy;

impl Thread {
    pub fn status(&self) -> Status
        ensures { status_of result ≡ self.now.status }
    {
        match self.phase {
            Phase::Dormant => Status::Dormant(self.start),
            Phase::Runnable => Status::Runnable,
            Phase::Blocked => Status::Blocked(self.waiting),
            Phase::Ended => Status::Ended,
        }
    }

    pub fn policy(&self) -> Policy
        ensures { result ≡ self.now.policy }
    {
        self.policy
    }

    /// Its server; `None` exactly where it has none.
    pub fn server(&self) -> &Option<Server>
        ensures { result.now ≡ self.now.server }
    {
        &self.server
    }

    /// The ticks of its round robin interval that it has run.
    pub fn slice(&self) -> u64
        ensures { result ≡ self.now.slice }
    {
        self.slice
    }

    /// All ticks that it has run.
    pub fn ticks(&self) -> u64
        ensures { result ≡ self.now.ticks }
    {
        self.ticks
    }

    /// Its frames, the top one first.
    pub fn frames(&self) -> &[Frame]
        ensures { result.now ≡ self.now.frames }
    {
        self.frames.as_slice()
    }

    /// The answer of the last call of its body.
    pub fn last_result(&self) -> Res
        ensures { result ≡ top_result self.now.frames }
    {
        match self.frames.as_slice().first() {
            None => Res::Zero,
            Some(frame) => frame.result(),
        }
    }

    /// The value of the last call of its body.
    pub fn last_value(&self) -> u64
        ensures { result ≡ top_value self.now.frames }
    {
        match self.frames.as_slice().first() {
            None => 0,
            Some(frame) => frame.value(),
        }
    }

    /// Its cleanup handlers, the one that was pushed last first.
    pub fn cleanups(&self) -> &[ObjId]
        ensures { result.now ≡ self.now.cleanups }
    {
        self.cleanups.as_slice()
    }

    /// Costs nothing when it runs: it has at most 3 frames, 8 cleanup handlers and 16 pending replenishments.
    pub fn know_few(&self)
        ensures frames { length self.now.frames ≤ 3 }
        ensures cleanups { length self.now.cleanups ≤ 8 }
        ensures pending { IfSome self.now.server (λ (s : ServerState). length s.pending ≤ 16) }
    {
        let _frames = self.frames.as_slice();
        let _cleanups = self.cleanups.len();
        if let Some(server) = &self.server {
            server.know_few();
        }
    }

    /// Whether it was asked to end.
    pub fn is_requested(&self) -> bool
        ensures { result ≡ self.now.is_requested }
    {
        self.is_requested
    }

    /// Whether a request may act in it.
    pub fn is_enabled(&self) -> bool
        ensures { result ≡ self.now.is_enabled }
    {
        self.is_enabled
    }

    /// Whether it is ending.
    pub fn is_ending(&self) -> bool
        ensures { result ≡ self.now.is_ending }
    {
        self.is_ending
    }
}
