//! Joining, cancellation and the end of a thread.
ghost use Rattle.std.specs.Prelude.{◌≡◌, ◌≤◌, ◌<◌, ◌==◌, ◌&&◌, ◌∷◌, List, false, length, slice_get, true};
ghost use Rattle.rules_bodies.specs.declared.op.Op.{Op};
ghost use Rattle.script_code.specs.Fetched.{unit_of};
ghost use Rattle.rules_bodies.specs.Flat.{NumberedBodies};
ghost use Rattle.rules_machine.specs.declared.frame.FrameKind.TheVariants as frame_kind;
ghost use Rattle.rules_machine.specs.declared.frame.BodyOf.TheVariants as body_of;
ghost use Rattle.rules_machine.specs.Cancellation.{request_acts, requested, without_cleanup};
ghost use Rattle.rules_machine.specs.Lives.{with_joiner, without_life, without_top};
ghost use Rattle.rules_machine.specs.Threads.{is_main, top_kind, top_left};
ghost use Rattle.rules_machine.specs.Units.{begins_cleanup, begins_finish, choice, is_at_end, takes_unit};
ghost use Rattle.rules_machine.specs.Waking.{ending_with, new_frame, on_top};
ghost use Rattle.rules_flat_code.specs.FlatBodies.{flat_bodies};
ghost use Rattle.rules_flat_code.specs.Placed.{ArePlaced};
ghost use Rattle.kernel_threads.specs.Handlers.{AreHandlers, CanTake, HandlersBegin, HasCleanup};
ghost use Rattle.kernel_threads.specs.Passing.{HasTaken};
ghost use Rattle.kernel_threads.specs.Plain.{joiner_of};

use crate::frame::Frame;
use crate::ran::Taken;
use crate::status::{Joiner, Phase};
use crate::thread::Thread;
use parts_steps::Steps;
use rules_machine::{BodyOf, FrameKind};
use script_code::{Code, Fetched};
use std::sync::ledger::Ledger;
use words_numbers::ObjId;

// The frame of a cleanup handler, at its beginning.
#[tactic(auto, using(crate::proofs::Endings::number_known))]
fn handler_frame(code: &Code, u: ObjId) -> Frame
    requires cleanup { HasCleanup code.now u }
    ensures { result ≡ new_frame (flat_bodies code.now) FrameKind.Cleanup (BodyOf.Cleanup u) 0 }
{
    Frame::new(
        FrameKind::Cleanup,
        BodyOf::Cleanup(u),
        code.start(code.cleanup_body(u), 0),
    )
}

impl Thread {
    /// It ends.
    pub fn end(&mut self)
        ensures { self.new ≡ without_life self.old }
    {
        self.phase = Phase::Ended;
        self.frames.clear();
        self.server = None;
    }

    /// Its present body ends, and the one below goes on.
    pub fn drop_frame(&mut self)
        ensures { self.new ≡ without_top self.old }
    {
        self.frames.drop_top();
    }

    /// Whether a request acts in it as soon as it may.
    pub fn request_acts(&self) -> bool
        ensures { result ≡ request_acts self.now }
    {
        self.is_requested && self.is_enabled && !self.is_ending
    }

    /// It is asked to end.
    pub fn request_end(&mut self)
        ensures { self.new ≡ requested self.old }
    {
        self.is_requested = true;
    }

    /// Its cancelability is enabled or disabled (pthread_setcancelstate).
    pub fn set_enabled(&mut self, on: bool)
        ensures { self.new ≡ record self.old { is_enabled = on } }
    {
        self.is_enabled = on;
    }

    /// It is ending, with that value.
    pub fn begin_end(&mut self, value: u64)
        ensures { self.new ≡ ending_with value self.old }
    {
        self.is_ending = true;
        self.exit_value = value;
    }

    /// The value that it ends with.
    pub fn exit_value(&self) -> u64
        ensures { result ≡ self.now.exit_value }
    {
        self.exit_value
    }

    /// Who joins it.
    pub fn joiner(&self) -> Joiner
        ensures { joiner_of result ≡ self.now.joiner }
    {
        self.joiner
    }

    pub fn set_joiner(&mut self, joiner: Joiner)
        ensures { self.new ≡ with_joiner (joiner_of joiner) self.old }
    {
        self.joiner = joiner;
    }

    /// What its present body is for; `Main` where it has none.
    pub fn kind(&self) -> FrameKind
        ensures { result ≡ top_kind self.now.frames }
    {
        match self.frames.as_slice().first() {
            None => FrameKind::Main,
            Some(frame) => frame.kind(),
        }
    }

    /// The cleanup handler is the last that was pushed.
    pub fn push_cleanup(&mut self, u: ObjId)
        requires { length self.old.cleanups < 8 }
        ensures { self.new ≡ record self.old { cleanups = u ∷ self.old.cleanups } }
    {
        self.cleanups.insert(0, u);
    }

    /// The cleanup handler that was pushed last; `None` exactly where there is none.
    pub fn last_cleanup(&self) -> Option<ObjId>
        ensures { result ≡ slice_get self.now.cleanups 0 }
    {
        self.cleanups.first().copied()
    }

    /// The cleanup handler that was pushed last is gone.
    pub fn drop_cleanup(&mut self)
        ensures { self.new ≡ without_cleanup self.old }
    {
        self.cleanups.pop_at(0);
    }

    /// A cleanup handler runs in a frame of its own.
    pub fn run_cleanup(&mut self, code: &Code, u: ObjId)
        requires cleanup { HasCleanup code.now u }
        requires room { length self.old.frames ≤ 2 }
        ensures { self.new ≡ on_top (new_frame (flat_bodies code.now) FrameKind.Cleanup (BodyOf.Cleanup u) 0) self.old }
    {
        self.frames.put_on_top(handler_frame(code, u));
    }

    // The next unit of its present body, past those that only take time and are over before so many ticks are. Each of these is a step.
    #[inline(always)]
    fn advance<L: Ledger>(&mut self, code: &Code, most: u64, steps: &mut Steps<L>) -> Taken
        requires placed { ArePlaced code.now self.old.frames }
        requires whole { top_left self.old.frames ≡ 0 }
        requires goes_on { is_at_end self.old ≡ false }
        ensures { HasTaken code.now most result self.old self.new steps.old steps.new }
    {
        self.frames.begin(code, most, steps)
    }

    // With no cleanup handler left it ends its main body.
    fn begin_finish(&mut self) -> Fetched
        ensures unit { (code : NumberedBodies (List Op)) → unit_of code result ≡ (begins_finish self.old.frames self.old).unit }
        ensures thread { self.new ≡ (begins_finish self.old.frames self.old).thread }
    {
        self.frames.begin_finish();
        Fetched::Finish
    }

    // The cleanup handler that was pushed last begins its first unit in a frame of its own.
    fn begin_cleanup(&mut self, code: &Code, u: ObjId) -> Fetched
        requires cleanup { HasCleanup code.now u }
        requires room { length self.old.frames ≤ 2 }
        ensures unit { unit_of code.now result ≡ (begins_cleanup (flat_bodies code.now) u self.old).unit }
        ensures thread { self.new ≡ (begins_cleanup (flat_bodies code.now) u self.old).thread }
    {
        self.drop_cleanup();
        let mut frame = handler_frame(code, u);
        let unit = frame.begin_next(code);
        self.frames.put_on_top(frame);
        unit
    }

    // It begins its next cleanup handler, or else its finish.
    #[inline(never)]
    #[tactic(auto, using(crate::proofs::Endings::begun_none, crate::proofs::Endings::begun_some, crate::proofs::Endings::first_known))]
    fn begin_ending(&mut self, code: &Code) -> Fetched
        requires room { length self.old.frames ≤ 2 }
        requires begins { HandlersBegin code.now }
        requires handlers { AreHandlers (length code.now.cleanups) self.old.cleanups }
        ensures unit { unit_of code.now result ≡ (takes_unit (flat_bodies code.now) (choice 0 true self.old.cleanups) self.old).unit }
        ensures thread { self.new ≡ (takes_unit (flat_bodies code.now) (choice 0 true self.old.cleanups) self.old).thread }
    {
        match self.last_cleanup() {
            None => self.begin_finish(),
            Some(u) => self.begin_cleanup(code, u),
        }
    }

    // The unit that it is in, or takes next, past those that only take time and are over before so many ticks are. Each of these is a step.
    // No tick is charged.
    #[inline(always)]
    pub(crate) fn take<L: Ledger>(&mut self, code: &Code, most: u64, steps: &mut Steps<L>) -> Taken
        requires can { CanTake code.now self.old }
        ensures { HasTaken code.now most result self.old self.new steps.old steps.new }
    {
        let left = self.left();
        if left > 0 {
            return Taken {
                passed: 0,
                unit: Fetched::Run(left),
                left,
            };
        }
        if self.is_ending && is_main(self.kind()) {
            let unit = self.begin_ending(code);
            return Taken {
                passed: 0,
                unit,
                left: self.left(),
            };
        }
        self.advance(code, most, steps)
    }
}

/// Whether a frame is the main one of its thread.
pub fn is_main(kind: FrameKind) -> bool
    ensures { result ≡ is_main kind }
{
    match kind {
        FrameKind::Main => true,
        _ => false,
    }
}
