//! Signals: what a thread blocks, what it waits for, and its handlers.
ghost use Rattle.std.specs.Prelude.{◌≡◌, ◌≤◌, ◌<◌, length, option_map};
ghost use Rattle.rules_bodies.specs.Next.{capped};
ghost use Rattle.rules_machine.specs.declared.frame.BodyOf.{BodyOf};
ghost use Rattle.rules_machine.specs.declared.frame.FrameKind.{FrameKind};
ghost use Rattle.rules_machine.specs.Delivery.{defers_handlers, may_be_interrupted, ticks_left};
ghost use Rattle.rules_machine.specs.Signals.{with_signals, without_signals};
ghost use Rattle.rules_machine.specs.State as machine;
ghost use Rattle.rules_machine.specs.Threads.{waiting_in};
ghost use Rattle.rules_machine.specs.Waking.{new_frame, on_top};
ghost use Rattle.rules_flat_code.specs.FlatBodies.{flat_bodies};
ghost use Rattle.kernel_threads.specs.Handlers.{HasHandler};
ghost use Rattle.kernel_threads.specs.Plain.{wait_of};
ghost use Rattle.kernel_threads.specs.Signals.{runs_handlers, signals_awaited, signals_in};

use crate::status::{Phase, Wait};
use crate::thread::Thread;
use rules_machine::{BodyOf, FrameKind};
use script_code::{Code, REGISTER_LIMIT};
use words_numbers::{ObjId, SigSet, Tick};
use words_script::Call;

impl Wait {
    /// Whether a thread that waits so runs no handler.
    pub(crate) fn defers_handlers(&self) -> bool
        ensures { result ≡ defers_handlers (wait_of self.now) }
    {
        match self {
            Wait::Mutex(_) => true,
            Wait::MutexAgain(_, _) => true,
            Wait::Condition(_, _) => true,
            Wait::End(_) => true,
            Wait::Semaphore(_) => false,
            Wait::Time => false,
            Wait::Room(_, _) => false,
            Wait::Message(_) => false,
            Wait::Signal(_) => false,
        }
    }

    /// The signals that it is for; none where it is for something else.
    pub(crate) fn signals(&self) -> SigSet
        ensures { result ≡ signals_in (wait_of self.now) }
    {
        match self {
            Wait::Signal(set) => *set,
            _ => SigSet::new(0),
        }
    }
}

// The ticks that were left of a sleep.
fn ticks_left(call: &Call, due: &Option<Tick>, now: Tick) -> u64
    ensures { result ≡ ticks_left call.now due.now now }
{
    match call {
        Call::Nanosleep(_) => match due {
            None => 0,
            Some(at) => at.get().saturating_sub(now.get()),
        },
        _ => 0,
    }
}

impl Thread {
    /// The signals that it blocks.
    pub fn mask(&self) -> SigSet
        ensures { result ≡ self.now.mask }
    {
        self.mask
    }

    /// Its mask with more signals.
    pub fn mask_with(&self, more: SigSet) -> SigSet
        ensures { result ≡ with_signals more self.now.mask }
    {
        SigSet::new(self.mask.bits() | more.bits())
    }

    /// Its mask with fewer signals.
    pub fn mask_without(&self, fewer: SigSet) -> SigSet
        ensures { result ≡ without_signals fewer self.now.mask }
    {
        SigSet::new(self.mask.bits() & (u32::MAX - fewer.bits()))
    }

    /// In a handler this is the mask that it comes back to.
    pub fn set_mask(&mut self, mask: SigSet)
        ensures { self.new ≡ record self.old { mask = mask } }
    {
        self.mask = mask;
    }

    /// Whether it lives and is in no handler of a signal, in which all signals are blocked.
    pub fn may_be_interrupted(&self) -> bool
        ensures { result ≡ may_be_interrupted self.now }
    {
        self.is_live() && !self.catches_signal()
    }

    /// Whether it may run a handler as it is. It runs none while it waits for a mutex, a condition or the end of a thread.
    pub fn runs_handlers(&self) -> bool
        ensures { result ≡ runs_handlers self.now.status }
    {
        match self.phase {
            Phase::Blocked => !self.waiting.wait.defers_handlers(),
            _ => true,
        }
    }

    /// The signals that it waits for.
    pub fn awaited_signals(&self) -> SigSet
        ensures { result ≡ signals_awaited (waiting_in self.now.status) }
    {
        match self.phase {
            Phase::Blocked => self.waiting.wait.signals(),
            _ => SigSet::new(0),
        }
    }

    /// What its call answers where a handler interrupts its wait: the ticks that were left of a sleep. `None` exactly where it does not
    /// wait.
    pub fn interrupted(&self, now: Tick) -> Option<u64>
        ensures { result ≡ option_map (λ (w : machine.Waiting). ticks_left w.call w.due now) (waiting_in self.now.status) }
    {
        match self.phase {
            Phase::Blocked => Some(ticks_left(&self.waiting.call, &self.waiting.due, now)),
            _ => None,
        }
    }

    /// A handler runs in a frame of its own, with the value of its signal in the register.
    pub fn catch_signal(&mut self, code: &Code, h: ObjId, value: u64)
        requires handler { HasHandler code.now h }
        requires room { length self.old.frames ≤ 2 }
        ensures { self.new ≡ on_top (new_frame (flat_bodies code.now) FrameKind.Signal (BodyOf.Handler h) (capped value)) self.old }
    {
        self.frames.begin_on_top(
            FrameKind::Signal,
            BodyOf::Handler(h),
            code.handler_body(h),
            value.min(REGISTER_LIMIT),
        );
    }
}
