//! Masks, handlers of signals, and who accepts a signal.
ghost use Rattle.std.specs.Prelude.{◌≡◌, ◌≤◌, ◌<◌, length, map, None};
ghost use Rattle.rules_bodies.specs.Next.{capped};
ghost use Rattle.rules_machine.specs.declared.frame.BodyOf.{BodyOf};
ghost use Rattle.rules_machine.specs.declared.frame.FrameKind.{FrameKind};
ghost use Rattle.rules_machine.specs.State.{SignalRecord};
ghost use Rattle.rules_machine.specs.Threads.{thread_in};
ghost use Rattle.rules_machine.specs.Waking.{new_frame, on_top};
ghost use Rattle.rules_flat_code.specs.FlatBodies.{flat_bodies};
ghost use Rattle.kernel_threads.specs.Handlers.{HasHandler};
ghost use Rattle.kernel_table.specs.Acceptors.{acceptor_in, set_awaited};
ghost use Rattle.kernel_table.specs.Table as table;
ghost use Rattle.kernel_table.specs.Table.{with_thread};
ghost use Rattle.kernel_table.specs.Movers.{KeepsPriorities};

use crate::table::Table;
use parts_waiters::{SignalSets, WaitObj};
use rules_machine::{BodyOf, FrameKind};
use script_code::Code;
use words_numbers::{ObjId, SigSet, Tid};

impl SignalSets for Table {
    ghost sets = { λ table. map set_awaited table.threads };

    #[tactic(auto, using(crate::proofs::Accepting::has_set, crate::proofs::Accepting::set_read))]
    fn set_of(&self, t: Tid) -> SigSet {
        self.threads.get(t).awaited_signals()
    }
}

impl Table {
    /// It blocks these signals now. No execution priority changes.
    pub fn set_mask(&mut self, t: Tid, mask: SigSet)
        requires { t < length self.old.threads }
        ensures { KeepsPriorities (with_thread t (λ th. record th { mask = mask })) self.old self.new }
    {
        self.threads.get_mut(t).set_mask(mask);
    }

    /// A handler of a signal runs in a frame of its own. No execution priority changes.
    pub fn catch_signal(&mut self, t: Tid, code: &Code, h: ObjId, value: u64)
        requires known { t < length self.old.threads }
        requires handler { HasHandler code.now h }
        requires room { length (thread_in self.old.threads t).frames ≤ 2 }
        ensures { KeepsPriorities (with_thread t (on_top (new_frame (flat_bodies code.now) FrameKind.Signal (BodyOf.Handler h) (capped value)))) self.old self.new }
    {
        self.threads.get_mut(t).catch_signal(code, h, value);
    }

    /// The thread that accepts the signal, 0 to 31, for the process as it is generated; `None` exactly where none does. Where no thread
    /// waits for a signal that is one comparison.
    #[inline(always)]
    pub fn acceptor(&self, signal: u8) -> Option<Tid>
        requires { signal < 32 }
        ensures { (r : SignalRecord) → r.signal ≡ signal → r.target ≡ None → result ≡ acceptor_in self.now r }
    {
        self.waits.serve_by_the_rules();
        if self.waits.best(WaitObj::SigWait).is_none() {
            return None;
        }
        self.acceptor_in_full(signal)
    }

    // The same, where some thread waits for a signal.
    #[inline(never)]
    #[tactic(auto, using(crate::proofs::Accepting::sets_many))]
    fn acceptor_in_full(&self, signal: u8) -> Option<Tid>
        requires { signal < 32 }
        ensures { (r : SignalRecord) → r.signal ≡ signal → r.target ≡ None → result ≡ acceptor_in self.now r }
    {
        self.waits.serve_by_the_rules();
        self.waits.best_for_signal(self, signal)
    }
}
