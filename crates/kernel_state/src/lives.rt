//! Joiners, requests and cleanup handlers.
ghost use Rattle.std.specs.Prelude.{◌≡◌, ◌≤◌, ◌<◌, ◌∷◌, length};
ghost use Rattle.rules_machine.specs.declared.frame.BodyOf.{BodyOf};
ghost use Rattle.rules_machine.specs.declared.frame.FrameKind.{FrameKind};
ghost use Rattle.rules_machine.specs.Cancellation.{requested, without_cleanup};
ghost use Rattle.rules_machine.specs.Lives.{with_joiner, without_top};
ghost use Rattle.rules_machine.specs.Threads.{thread_at};
ghost use Rattle.rules_machine.specs.Turns.{changes};
ghost use Rattle.rules_machine.specs.Waking.{ending_with, new_frame, on_top};
ghost use Rattle.rules_flat_code.specs.FlatBodies.{flat_bodies};
ghost use Rattle.kernel_threads.specs.Plain.{joiner_of};
ghost use Rattle.kernel_state.specs.Kernel.{after};

use crate::parts::Parts;
use kernel_threads::Joiner;
use rules_machine::{BodyOf, FrameKind};
use words_numbers::{ObjId, Tid};

impl Parts {
    pub fn set_joiner(&mut self, t: Tid, joiner: Joiner)
        requires { t < length self.old.names }
        ensures { self.new ≡ after (changes t (with_joiner (joiner_of joiner))) self.old }
    {
        self.table.set_joiner(t, joiner);
    }

    /// A thread is asked to end.
    pub fn request_end(&mut self, t: Tid)
        requires { t < length self.old.names }
        ensures { self.new ≡ after (changes t requested) self.old }
    {
        self.table.request_end(t);
    }

    /// The cancelability of a thread is enabled or disabled.
    pub fn set_enabled(&mut self, t: Tid, on: bool)
        requires { t < length self.old.names }
        ensures { self.new ≡ after (changes t (λ th. record th { is_enabled = on })) self.old }
    {
        self.table.set_enabled(t, on);
    }

    /// A thread is ending, with that value.
    pub fn begin_end(&mut self, t: Tid, value: u64)
        requires { t < length self.old.names }
        ensures { self.new ≡ after (changes t (ending_with value)) self.old }
    {
        self.table.begin_end(t, value);
    }

    /// A handler of a thread returns to what it interrupted.
    pub fn drop_frame(&mut self, t: Tid)
        requires { t < length self.old.names }
        ensures { self.new ≡ after (changes t without_top) self.old }
    {
        self.table.drop_frame(t);
    }

    /// The cleanup handler is the last that the thread pushed.
    pub fn push_cleanup(&mut self, t: Tid, u: ObjId)
        requires known { t < length self.old.names }
        requires room { length (thread_at self.old.machine t).cleanups < 8 }
        ensures { self.new ≡ after (changes t (λ th. record th { cleanups = u ∷ th.cleanups })) self.old }
    {
        self.table.push_cleanup(t, u);
    }

    /// The cleanup handler that the thread pushed last is gone.
    pub fn drop_cleanup(&mut self, t: Tid)
        requires { t < length self.old.names }
        ensures { self.new ≡ after (changes t without_cleanup) self.old }
    {
        self.table.drop_cleanup(t);
    }

    /// A cleanup handler runs in a frame of its own.
    pub fn run_cleanup(&mut self, t: Tid, u: ObjId)
        requires known { t < length self.old.names }
        requires handler { u < length self.old.code.cleanups }
        requires room { length (thread_at self.old.machine t).frames ≤ 2 }
        ensures { self.new ≡ after (changes t (on_top (new_frame (flat_bodies self.old.code) FrameKind.Cleanup (BodyOf.Cleanup u) 0))) self.old }
    {
        self.table.run_cleanup(t, &self.code, u);
    }
}
