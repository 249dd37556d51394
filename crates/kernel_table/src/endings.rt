//! Joining, requests and cleanup handlers: no claim, wait or due item changes.
ghost use Rattle.std.specs.Prelude.{◌≡◌, ◌≤◌, ◌<◌, ◌∷◌, length};
ghost use Rattle.rules_machine.specs.declared.frame.BodyOf.{BodyOf};
ghost use Rattle.rules_machine.specs.declared.frame.FrameKind.{FrameKind};
ghost use Rattle.rules_machine.specs.Cancellation.{requested, without_cleanup};
ghost use Rattle.rules_machine.specs.Lives.{with_joiner, without_top};
ghost use Rattle.rules_machine.specs.Threads.{thread_in};
ghost use Rattle.rules_machine.specs.Waking.{ending_with, new_frame, on_top};
ghost use Rattle.rules_flat_code.specs.FlatBodies.{flat_bodies};
ghost use Rattle.kernel_threads.specs.Handlers.{HasCleanup};
ghost use Rattle.kernel_threads.specs.Plain.{joiner_of};
ghost use Rattle.kernel_table.specs.Table as table;
ghost use Rattle.kernel_table.specs.Table.{with_thread};
ghost use Rattle.kernel_table.specs.Movers.{KeepsPriorities};

use crate::table::Table;
use kernel_threads::Joiner;
use rules_machine::{BodyOf, FrameKind};
use script_code::Code;
use words_numbers::{ObjId, Tid};

impl Table {
    /// That is who joins it now. No execution priority changes.
    pub fn set_joiner(&mut self, t: Tid, joiner: Joiner)
        requires { t < length self.old.threads }
        ensures { KeepsPriorities (with_thread t (with_joiner (joiner_of joiner))) self.old self.new }
    {
        self.threads.get_mut(t).set_joiner(joiner);
    }

    /// It is asked to end. No execution priority changes.
    pub fn request_end(&mut self, t: Tid)
        requires { t < length self.old.threads }
        ensures { KeepsPriorities (with_thread t requested) self.old self.new }
    {
        self.threads.get_mut(t).request_end();
    }

    /// Its cancelability is enabled or disabled. No execution priority changes.
    pub fn set_enabled(&mut self, t: Tid, on: bool)
        requires { t < length self.old.threads }
        ensures { KeepsPriorities (with_thread t (λ th. record th { is_enabled = on })) self.old self.new }
    {
        self.threads.get_mut(t).set_enabled(on);
    }

    /// It is ending, with that value. No execution priority changes.
    pub fn begin_end(&mut self, t: Tid, value: u64)
        requires { t < length self.old.threads }
        ensures { KeepsPriorities (with_thread t (ending_with value)) self.old self.new }
    {
        self.threads.get_mut(t).begin_end(value);
    }

    /// Its present body ends, and the one below goes on. No execution priority changes.
    pub fn drop_frame(&mut self, t: Tid)
        requires { t < length self.old.threads }
        ensures { KeepsPriorities (with_thread t without_top) self.old self.new }
    {
        self.threads.get_mut(t).drop_frame();
    }

    /// The cleanup handler is the last that was pushed. No execution priority changes.
    pub fn push_cleanup(&mut self, t: Tid, u: ObjId)
        requires known { t < length self.old.threads }
        requires room { length (thread_in self.old.threads t).cleanups < 8 }
        ensures { KeepsPriorities (with_thread t (λ th. record th { cleanups = u ∷ th.cleanups })) self.old self.new }
    {
        self.threads.get_mut(t).push_cleanup(u);
    }

    /// The cleanup handler that was pushed last is gone. No execution priority changes.
    pub fn drop_cleanup(&mut self, t: Tid)
        requires { t < length self.old.threads }
        ensures { KeepsPriorities (with_thread t without_cleanup) self.old self.new }
    {
        self.threads.get_mut(t).drop_cleanup();
    }

    /// A cleanup handler runs in a frame of its own. No execution priority changes.
    pub fn run_cleanup(&mut self, t: Tid, code: &Code, u: ObjId)
        requires known { t < length self.old.threads }
        requires cleanup { HasCleanup code.now u }
        requires room { length (thread_in self.old.threads t).frames ≤ 2 }
        ensures { KeepsPriorities (with_thread t (on_top (new_frame (flat_bodies code.now) FrameKind.Cleanup (BodyOf.Cleanup u) 0))) self.old self.new }
    {
        self.threads.get_mut(t).run_cleanup(code, u);
    }
}
