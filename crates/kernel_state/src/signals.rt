//! Signals: what they do, and the pending ones.
ghost use Rattle.std.specs.Prelude.{◌≡◌, ◌≤◌, ◌<◌, ◌^◌, ◌↔◌, ◌&&◌, [], Contains, IfSome, IsTrue, None, Some, length, option_map, true, if◌then◌else◌, ℕ};
ghost use Rattle.words_numbers.specs.Signals.{has_signal};
ghost use Rattle.rules_bodies.specs.Next.{capped};
ghost use Rattle.rules_machine.specs.declared.frame.BodyOf.{BodyOf};
ghost use Rattle.rules_machine.specs.declared.frame.FrameKind.{FrameKind};
ghost use Rattle.rules_machine.specs.Delivery.{kills, taken_by_sweep};
ghost use Rattle.rules_machine.specs.Lives.{without_target};
ghost use Rattle.rules_machine.specs.Signals.{accepts, acceptor, becomes_pending, may_go_to, is_full, selected, tells_overrun, without_record};
ghost use Rattle.rules_machine.specs.State as machine;
ghost use Rattle.rules_machine.specs.Threads.{action_of, is_blocked, thread_at};
ghost use Rattle.rules_machine.specs.Turns.{changes, changes_pending};
ghost use Rattle.rules_machine.specs.Waiters.{Waiter, waits_so};
ghost use Rattle.rules_machine.specs.Waking.{new_frame, on_top};
ghost use Rattle.rules_flat_code.specs.FlatBodies.{flat_bodies};
ghost use Rattle.kernel_state.specs.Caught.{HasRoomToPend};
ghost use Rattle.kernel_state.specs.Kernel.{after, told};
ghost use Rattle.kernel_state.specs.Does.{Does};

use crate::parts::Parts;
use kernel_signals::SignalRecord;
use parts_io::Sink;
use parts_tracer::Tracer;
use rules_machine::SigAction;
use words_numbers::{ObjId, SigSet, Tid};
use words_trace::Event;

impl Parts {
    /// Whether nothing is pending.
    pub fn none_pending(&self) -> bool
        ensures { IsTrue result ↔ (self.now.machine.pending ≡ []) }
    {
        self.pending.is_empty()
    }

    /// Whether as many records of kill, tkill and sigqueue are pending as may be.
    pub fn is_full(&self) -> bool
        ensures { result ≡ is_full self.now.machine }
    {
        self.pending.is_full()
    }

    /// What a signal, 0 to 31, does.
    pub fn action(&self, signal: u8) -> SigAction
        requires { signal < 32 }
        ensures { result ≡ action_of self.now.machine signal }
    {
        self.actions.get(signal)
    }

    /// The pending record that the sweep takes for a thread; it stays. `None` exactly where there is none.
    #[inline(always)]
    pub fn next_signal(&self, t: Tid) -> Option<SignalRecord>
        requires { t < length self.now.names }
        ensures value { result ≡ taken_by_sweep self.now.machine t }
        ensures pending { IfSome result (λ r. Contains self.now.machine.pending r) }
        ensures signal { IfSome result (λ r. r.signal < 32) }
    {
        let thread = self.table.thread(t);
        if !thread.may_be_interrupted() {
            return None;
        }
        self.pending.next_for(
            t,
            thread.mask(),
            self.actions.kills(),
            thread.runs_handlers(),
        )
    }

    // Whether a thread takes no pending record since its mask has their signals, or since it is in a handler or lives no more.
    #[inline(always)]
    fn takes_none(&self, t: Tid) -> bool
        requires { t < length self.now.names }
        ensures { IsTrue result → taken_by_sweep self.now.machine t ≡ None }
    {
        let thread = self.table.thread(t);
        self.pending.are_masked(thread.mask()) || !thread.may_be_interrupted()
    }

    /// Whether no thread takes a pending record since each blocks their signals, is in a handler or lives no more.
    #[inline(always)]
    pub fn no_thread_takes(&self) -> bool
        ensures { IsTrue result → (t : ℕ) → t < length self.now.machine.threads → taken_by_sweep self.now.machine t ≡ None }
    {
        for number in 0..self.count() {
            let t = self.tid(number);
            if !self.takes_none(t) {
                return false;
            }
        }
        true
    }

    /// The pending record that a thread takes which asks for one of a set; it stays. `None` exactly where there is none.
    pub fn next_awaited(&self, t: Tid, set: SigSet) -> Option<SignalRecord>
        ensures value { result ≡ selected self.now.machine (λ (r : machine.SignalRecord). has_signal set r.signal && may_go_to t r.target) }
        ensures pending { IfSome result (λ r. Contains self.now.machine.pending r) }
    {
        self.pending.next_in(t, set)
    }

    /// The record is no longer pending.
    pub fn take_record(&mut self, r: &SignalRecord)
        requires { Contains self.old.machine.pending r.now }
        ensures { self.new ≡ after (changes_pending (without_record r.now)) self.old }
    {
        self.pending.remove(r);
    }

    /// The signals directed to a thread are gone.
    pub fn drop_pending(&mut self, t: Tid)
        ensures { self.new ≡ after (changes_pending (without_target t)) self.old }
    {
        self.pending.drop_for(t);
    }

    /// The record becomes pending.
    #[inline(always)]
    pub fn pend(&mut self, r: SignalRecord)
        requires signal { r.signal < 32 }
        requires room { HasRoomToPend self.old.machine }
        requires serial { self.old.machine.next_serial < 2 ^ 63 }
        ensures { self.new ≡ after (becomes_pending r) self.old }
    {
        let serial = self.take_serial();
        self.pending.add(r, serial);
    }

    /// The overrun of the timer that a record is from is told.
    pub fn tell_overrun(&mut self, timer: &Option<ObjId>)
        ensures { self.new ≡ after (tells_overrun timer.now) self.old }
    {
        if let Some(k) = *timer {
            self.tell_timer_overrun(k);
        }
    }

    /// The process ends by a signal.
    pub fn kill<K: Sink>(&mut self, signal: u8, out: &mut Tracer<'_, K>)
        ensures { Does K.text K.faults (kills signal) self.old self.new out.old out.new }
    {
        self.tell(&Event::Killed(signal), out);
        self.killed = Some(signal);
    }

    /// A thread blocks these signals now.
    pub fn set_mask(&mut self, t: Tid, mask: SigSet)
        requires { t < length self.old.names }
        ensures { self.new ≡ after (changes t (λ th. record th { mask = mask })) self.old }
    {
        self.table.set_mask(t, mask);
    }

    /// A handler of a signal runs in a frame of its own.
    pub fn catch_signal(&mut self, t: Tid, h: ObjId, value: u64)
        requires known { t < length self.old.names }
        requires handler { h < length self.old.code.handlers }
        requires room { length (thread_at self.old.machine t).frames ≤ 2 }
        ensures { self.new ≡ after (changes t (on_top (new_frame (flat_bodies self.old.code) FrameKind.Signal (BodyOf.Handler h) (capped value)))) self.old }
    {
        self.table.catch_signal(t, &self.code, h, value);
    }

    // Whether a thread waits for a signal.
    #[tactic(auto, using(crate::proofs::Targets::accepts_so))]
    fn awaits(&self, t: Tid, signal: u8) -> bool
        requires known { t < length self.now.names }
        requires signal { signal < 32 }
        ensures { (r : machine.SignalRecord) → r.signal ≡ signal → result ≡ waits_so (accepts r) (thread_at self.now.machine t) }
    {
        self.table.thread(t).awaited_signals().contains(signal)
    }

    // The thread, where it waits for a signal.
    fn if_awaits(&self, t: Tid, signal: u8) -> Option<Tid>
        requires known { t < length self.now.names }
        requires signal { signal < 32 }
        ensures { (r : machine.SignalRecord) → r.signal ≡ signal → result ≡ (if waits_so (accepts r) (thread_at self.now.machine t) then Some t else None) }
    {
        if self.awaits(t, signal) {
            Some(t)
        } else {
            None
        }
    }

    /// The thread that accepts a record as it is generated; `None` exactly where none does.
    pub fn acceptor(&self, r: &SignalRecord) -> Option<Tid>
        requires signal { r.now.signal < 32 }
        requires target { IfSome r.now.target (λ t. t < length self.now.names) }
        ensures value { result ≡ option_map (λ (w : Waiter). w.thread) (acceptor self.now.machine r.now) }
        ensures known { IfSome result (λ t. t < length self.now.names) }
        ensures blocked { IfSome result (λ t. is_blocked (thread_at self.now.machine t).status ≡ true) }
    {
        match r.target() {
            None => self.table.acceptor(r.signal()),
            Some(t) => self.if_awaits(t, r.signal()),
        }
    }
}
