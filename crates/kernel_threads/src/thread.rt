//! One thread of the kernel.
ghost use Rattle.std.specs.Prelude.{◌≡◌, ◌≤◌, ◌<◌, ◌*◌, ◌^◌, ◌∷◌, [], None, option_and_then, option_map, true, false, Some};
ghost use Rattle.rules_bodies.specs.declared.cursor.Cursor.{Cursor};
ghost use Rattle.rules_machine.specs.Threads.{is_runnable, is_dormant, no_thread, catches_signal, is_live, waiting_in, top_left, top_register, is_blocked};
ghost use Rattle.rules_bodies.specs.Next.{register_limit};
ghost use Rattle.rules_flat_code.specs.KnownCalls.{IsOperand};
ghost use Rattle.kernel_threads.specs.Operands.{number_in};
ghost use Rattle.rules_machine.specs.Servers.{server_of};
ghost use Rattle.rules_machine.specs.Turns.{answered};
ghost use Rattle.rules_machine.specs.Waking.{woken, put_to_wait, call_in};
ghost use Rattle.rules_machine.specs.DueItems.{start_in};
ghost use Rattle.rules_machine.specs.Lives.{inherited_mask};
ghost use Rattle.rules_machine.specs.State as machine;
ghost use Rattle.kernel_threads.specs.Plain.{status_of, wait_of};
ghost use Rattle.kernel_threads.specs.declared.status.Status.TheVariants as Status;
ghost use Rattle.rules_machine.specs.State.{for_mutex_again};
ghost use Rattle.kernel_threads.specs.Sleeping.{waits_for_time};
ghost use Rattle.words_trace.specs.declared.report.Report.{Report};
ghost use Rattle.rules_machine.specs.Machine.{budget_of, report_of};

use crate::frame::Frame;
use crate::frames::Frames;
use crate::server::{budget_of, new_server};
use crate::status::{Joiner, Phase, Wait, Waiting};
use arrayvec::ArrayVec;
use parts_server::Server;
use rules_machine::CondEnd;
use script_code::{Code, Unit};
use std::marker::Model;
use words_numbers::{ObjId, Res, SigSet, Tick};
use words_script::{Call, Operand, Policy};
use words_trace::Report;

/// A thread of a script.
#[derive(Drop)]
pub struct Thread {
    pub(crate) ticks: u64,
    pub(crate) slice: u64,
    pub(crate) policy: Policy,
    pub(crate) mask: SigSet,
    pub(crate) is_requested: bool,
    pub(crate) is_enabled: bool,
    pub(crate) is_ending: bool,
    pub(crate) phase: Phase,
    pub(crate) frames: Frames,
    // its wait; read only where it is blocked
    pub(crate) waiting: Waiting,
    // when it starts by itself; read only where it is dormant
    pub(crate) start: Option<u64>,
    pub(crate) server: Option<Server>,
    // the handler that was pushed last first
    pub(crate) cleanups: ArrayVec<ObjId, 8>,
    pub(crate) exit_value: u64,
    pub(crate) joiner: Joiner,
}

impl Model for Thread {
    ghost use Rattle.rules_machine.specs.State as machine;
    ghost use Rattle.rules_bodies.specs.declared.cursor.Cursor.{Cursor};

    ghost Value = { machine.Thread Cursor };

    ghost use Rattle.rules_machine.specs.Threads.{top_left};
    ghost use Rattle.kernel_threads.specs.Plain.{joiner_of, status_in};

    ghost view = { λ t. record { status = status_in t.phase t.start t.waiting; policy = t.policy; server = t.server; slice = t.slice; ticks = t.ticks; mask = t.mask; frames = t.frames; is_requested = t.is_requested; is_enabled = t.is_enabled; is_ending = t.is_ending; cleanups = t.cleanups.items; exit_value = t.exit_value; joiner = joiner_of t.joiner } };

    ghost use Rattle.kernel_threads.specs.Held.{IsHeld};

    ghost invariant = { λ t. IsHeld t.policy t.server };
}

// What stands in place of a wait before the first.
fn no_wait() -> Waiting {
    Waiting {
        wait: Wait::Time,
        serial: 0,
        due: None,
        call: Call::Yield,
    }
}

impl Thread {
    /// A thread that has not started.
    pub fn dormant(policy: Policy, start: Option<u64>) -> Thread
        ensures { result ≡ record no_thread { status = status_of (Status.Dormant start); policy = policy } }
    {
        Thread {
            phase: Phase::Dormant,
            waiting: no_wait(),
            start,
            policy,
            server: None,
            slice: 0,
            ticks: 0,
            mask: SigSet::new(0),
            frames: Frames::new(),
            is_requested: false,
            is_enabled: true,
            is_ending: false,
            cleanups: ArrayVec::new(),
            exit_value: 0,
            joiner: Joiner::Nobody,
        }
    }

    pub fn is_runnable(&self) -> bool
        ensures { result ≡ is_runnable self.now.status }
    {
        match self.phase {
            Phase::Runnable => true,
            _ => false,
        }
    }

    pub fn is_dormant(&self) -> bool
        ensures { result ≡ is_dormant self.now.status }
    {
        match self.phase {
            Phase::Dormant => true,
            _ => false,
        }
    }

    /// When it starts by itself.
    pub fn start_due(&self) -> Option<u64>
        ensures { result ≡ start_in self.now.status }
    {
        match self.phase {
            Phase::Dormant => self.start,
            _ => None,
        }
    }

    /// The last call of its body has that answer.
    pub fn answer(&mut self, res: Res, value: u64)
        ensures { self.new ≡ answered res value self.old }
    {
        self.frames.answer(res, value);
    }

    /// It is runnable again, with its answer and a new round robin interval.
    pub fn wake(&mut self, res: Res, value: u64)
        ensures { self.new ≡ woken res value self.old }
    {
        self.phase = Phase::Runnable;
        self.clear_slice();
        self.answer(res, value);
    }

    /// It waits.
    #[inline(always)]
    pub fn block(&mut self, wait: &Wait, serial: u64, due: &Option<Tick>, call: &Call)
        ensures { self.new ≡ put_to_wait (record { wait = wait_of wait.now; serial = serial; due = due.now; call = call.now }) self.old }
    {
        self.phase = Phase::Blocked;
        self.waiting.wait = *wait;
        self.waiting.serial = serial;
        self.waiting.due = *due;
        self.waiting.call = *call;
    }

    /// It waits on in its call, without a limit, for the mutex of its condition wait, which has ended.
    #[inline(always)]
    pub fn block_again(&mut self, k: ObjId, how: CondEnd, serial: u64)
        requires { is_blocked self.old.status ≡ true }
        ensures { self.new ≡ put_to_wait (record { wait = for_mutex_again k how; serial = serial; due = None; call = call_in (waiting_in self.old.status) }) self.old }
    {
        self.waiting.wait = Wait::MutexAgain(k, how);
        self.waiting.serial = serial;
        self.waiting.due = None;
    }

    /// It starts in that frame.
    pub fn start(&mut self, mask: SigSet, now: Tick, main: Frame)
        requires { now ≤ 10 ^ 18 }
        ensures { self.new ≡ record self.old { status = status_of Status.Runnable; slice = 0; mask = mask; frames = main ∷ []; server = server_of self.old.policy now } }
    {
        self.phase = Phase::Runnable;
        self.slice = 0;
        self.mask = mask;
        self.frames.begin_with(main);
        self.server = new_server(&self.policy, now);
    }

    /// The call in which it is blocked.
    pub fn waiting_call(&self) -> Call
        ensures { result ≡ call_in (waiting_in self.now.status) }
    {
        match self.phase {
            Phase::Blocked => self.waiting.call,
            _ => Call::Yield,
        }
    }

    /// What it waits for.
    pub fn wait(&self) -> Option<Wait>
        ensures { option_map wait_of result ≡ option_map (λ (w : machine.Waiting). w.wait) (waiting_in self.now.status) }
    {
        match self.phase {
            Phase::Blocked => Some(self.waiting.wait),
            _ => None,
        }
    }

    /// When its wait ends by itself.
    pub fn wait_due(&self) -> Option<Tick>
        ensures { result ≡ option_and_then (λ (w : machine.Waiting). w.due) (waiting_in self.now.status) }
    {
        match self.phase {
            Phase::Blocked => self.waiting.due,
            _ => None,
        }
    }

    /// Whether it waits, and for nothing but an instant.
    pub fn waits_for_time(&self) -> bool
        ensures { result ≡ waits_for_time (waiting_in self.now.status) }
    {
        match (self.phase, self.waiting.wait) {
            (Phase::Blocked, Wait::Time) => true,
            _ => false,
        }
    }

    pub fn is_live(&self) -> bool
        ensures { result ≡ is_live self.now.status }
    {
        match self.phase {
            Phase::Runnable => true,
            Phase::Blocked => true,
            _ => false,
        }
    }

    /// The signals that a thread which it creates blocks.
    pub fn inherited_mask(&self) -> SigSet
        ensures { result ≡ inherited_mask self.now }
    {
        if self.catches_signal() {
            SigSet::new(u32::MAX)
        } else {
            self.mask
        }
    }

    pub(crate) fn catches_signal(&self) -> bool
        ensures { result ≡ catches_signal self.now }
    {
        match self.frames.as_slice().first() {
            None => false,
            Some(frame) => frame.is_signal(),
        }
    }

    // What the register of its body holds, at most 2·10^18.
    fn register(&self) -> u64
        ensures value { result ≡ top_register self.now.frames }
        ensures limit { result ≤ register_limit }
    {
        match self.frames.as_slice().first() {
            None => 0,
            Some(frame) => frame.register(),
        }
    }

    /// The number that an operand of its call stands for, at most 2·10^18.
    pub fn number(&self, operand: &Operand) -> u64
        requires { IsOperand operand.now }
        ensures value { result ≡ number_in operand.now self.now.frames }
        ensures limit { result ≤ 2 * 10 ^ 18 }
    {
        match operand {
            Operand::Num(n) => *n,
            Operand::Reg => self.register(),
        }
    }

    /// The ticks left of its unit.
    pub fn left(&self) -> u64
        ensures { result ≡ top_left self.now.frames }
    {
        match self.frames.as_slice().first() {
            None => 0,
            Some(frame) => frame.left(),
        }
    }

    pub(crate) fn is_blocked(&self) -> bool
        ensures { result ≡ is_blocked self.now.status }
    {
        match self.phase {
            Phase::Blocked => true,
            _ => false,
        }
    }

    /// What is told of it when a run ends.
    pub fn report(&self) -> Report
        ensures { result ≡ report_of self.now }
    {
        Report {
            ticks: self.ticks,
            budget: match &self.server {
                None => None,
                Some(server) => Some(budget_of(server)),
            },
        }
    }
}
