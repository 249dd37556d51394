//! The smallest changes of a thread. Each names those that may no longer stand where they are to stand.
ghost use Rattle.std.specs.Prelude.{◌≡◌, ◌≤◌, ◌<◌, ◌^◌, length, option_map, true};
ghost use Rattle.rules_server.specs.Server.{activate};
ghost use Rattle.rules_machine.specs.Servers.{with_server};
ghost use Rattle.rules_machine.specs.State.{for_mutex_again};
ghost use Rattle.rules_machine.specs.Threads.{is_blocked, thread_at, waiting_of as waiting_at};
ghost use Rattle.rules_machine.specs.Lives.{without_life};
ghost use Rattle.rules_machine.specs.Scheduling.{takes_priority, with_policy, with_priority};
ghost use Rattle.rules_machine.specs.Waking.{new_frame, started};
ghost use Rattle.rules_machine.specs.Ticks.{without_slice};
ghost use Rattle.script_code.specs.Fetched.{call_of};
ghost use Rattle.rules_flat_code.specs.FlatBodies.{flat_bodies};
ghost use Rattle.rules_machine.specs.Turns.{answered, changes};
ghost use Rattle.rules_machine.specs.Waking.{call_in, put_to_wait, woken};
ghost use Rattle.rules_machine.specs.Priorities.{mutex_awaited_by, mutex_waited};
ghost use Rattle.kernel_threads.specs.Plain.{wait_of};
ghost use Rattle.kernel_state.specs.RealTimes.{MayWaitUntil};
ghost use Rattle.kernel_state.specs.Waits.{CanWait};
ghost use Rattle.kernel_state.specs.Kernel.{after};
ghost use Rattle.std.specs.Prelude.{IfSome, None, Some, is_some};
ghost use Rattle.rules_server.specs.Server.{plan, refill, replenishment};
ghost use Rattle.rules_machine.specs.Ticks.{consumed_in};
ghost use Rattle.kernel_threads.specs.Ends.{refilled_of};
ghost use Rattle.kernel_state.specs.Callers.{IsRunning};

use crate::parts::Parts;
use kernel_threads::{Frame, Refilled, Wait};
use parts_server::Replenish;
use rules_machine::{BodyOf, CondEnd, FrameKind};
use script_code::CallPlace;
use words_numbers::{ObjId, Prio, Res, SigSet, Tick, Tid};
use words_script::{Call, Policy};

impl Parts {
    pub(crate) fn answer_thread(&mut self, t: Tid, res: Res, value: u64)
        requires { t < length self.old.names }
        ensures { self.new ≡ after (changes t (answered res value)) self.old }
    {
        self.table.answer(t, res, value);
    }

    #[inline(always)]
    pub fn wake_thread(&mut self, t: Tid, res: Res, value: u64)
        requires { t < length self.old.names }
        ensures { self.new ≡ after (changes t (woken res value)) self.old }
    {
        let moved = self.table.wake(t, res, value);
        self.named.take_in(&moved);
    }

    // A blocked thread waits on in its call, for that mutex. It stands on no list, so that it is not named.
    #[inline(always)]
    #[tactic(auto, using(crate::proofs::Waits::can_await))]
    pub(crate) fn keep_blocked(&mut self, t: Tid, k: ObjId, how: CondEnd, serial: u64)
        requires known { t < length self.old.names }
        requires blocked { is_blocked (thread_at self.old.machine t).status ≡ true }
        requires waits_not { mutex_awaited_by (thread_at self.old.machine t) ≡ None }
        requires may { CanWait self.old.machine t (Some k) }
        ensures { self.new ≡ after (changes t (put_to_wait (record { wait = for_mutex_again k how; serial = serial; due = None; call = call_in (waiting_at self.old.machine t) }))) self.old }
    {
        let moved = self.table.block_again(t, k, how, serial);
        self.named.take_in(&moved);
    }

    // A thread that can run waits.
    #[inline(always)]
    #[tactic(auto, using(crate::proofs::Waits::can_await))]
    pub(crate) fn block_runner(
        &mut self,
        t: Tid,
        wait: &Wait,
        serial: u64,
        due: &Option<Tick>,
        call: &Call,
    )
        requires caller { IsRunning self.old t }
        requires may { CanWait self.old.machine t (mutex_waited (wait_of wait.now)) }
        requires modest { MayWaitUntil self.old.machine call.now due.now }
        ensures { self.new ≡ after (changes t (put_to_wait (record { wait = wait_of wait.now; serial = serial; due = due.now; call = call.now }))) self.old }
    {
        let moved = self.table.block_runner(t, wait, serial, due, call);
        self.named.add(t);
        self.named.take_in(&moved);
    }

    pub fn activate_thread(&mut self, t: Tid)
        requires known { t < length self.old.names }
        requires unused { consumed_in (thread_at self.old.machine t).server ≡ 0 }
        requires early { self.old.machine.now ≤ 10 ^ 18 }
        ensures { self.new ≡ after (changes t (with_server (activate self.old.machine.now))) self.old }
    {
        self.table.activate(t, self.instant);
    }

    // The main frame of a thread, at its beginning.
    #[tactic(auto, using(crate::proofs::Opened::number_known))]
    fn main_frame(&self, t: Tid) -> Frame
        requires { t < length self.now.names }
        ensures { result ≡ new_frame (flat_bodies self.now.code) FrameKind.Main (BodyOf.Thread t) 0 }
    {
        Frame::new(
            FrameKind::Main,
            BodyOf::Thread(t),
            self.code.start(self.code.thread_body(t), 0),
        )
    }

    pub fn start_thread(&mut self, t: Tid, mask: SigSet)
        requires known { t < length self.old.names }
        requires early { self.old.machine.now ≤ 10 ^ 18 }
        ensures { self.new ≡ after (changes t (started (flat_bodies self.old.code) t mask self.old.machine.now)) self.old }
    {
        let main = self.main_frame(t);
        let moved = self.table.start(t, mask, self.instant, main);
        self.named.add(t);
        self.named.take_in(&moved);
    }

    pub fn set_thread_priority(&mut self, t: Tid, p: Prio)
        requires known { t < length self.old.names }
        requires takes { takes_priority (thread_at self.old.machine t).policy p ≡ true }
        ensures { self.new ≡ after (changes t (with_priority p)) self.old }
    {
        let moved = self.table.set_priority(t, p);
        self.named.take_in(&moved);
    }

    pub fn set_thread_policy(&mut self, t: Tid, new: Policy)
        requires known { t < length self.old.names }
        requires early { self.old.machine.now ≤ 10 ^ 18 }
        ensures { self.new ≡ after (changes t (with_policy new self.old.machine.now)) self.old }
    {
        let moved = self.table.set_policy(t, new, self.instant);
        self.named.take_in(&moved);
    }

    /// The call that stands at a place of the code.
    #[inline(always)]
    pub fn call(&self, place: &CallPlace) -> Call
        ensures { result ≡ call_of self.now.code place.now }
    {
        self.code.call(place)
    }

    /// The same, where it stands in the table of its body, as all calls do but the shortest.
    #[inline(always)]
    pub fn call_in_table(&self, place: &CallPlace) -> Option<&Call>
        ensures { IfSome result (λ call. call.now ≡ call_of self.now.code place.now) }
    {
        self.code.call_in_table(place)
    }

    pub fn clear_slice(&mut self, t: Tid)
        requires { t < length self.old.names }
        ensures { self.new ≡ after (changes t without_slice) self.old }
    {
        self.table.clear_slice(t);
    }

    pub fn end_thread(&mut self, t: Tid)
        requires { t < length self.old.names }
        ensures { self.new ≡ after (changes t without_life) self.old }
    {
        let moved = self.table.end(t);
        self.named.add(t);
        self.named.take_in(&moved);
    }

    pub fn plan_thread(&mut self, t: Tid) -> Replenish
        requires known { t < length self.old.names }
        requires used { 1 ≤ consumed_in (thread_at self.old.machine t).server }
        ensures value { Some result ≡ option_map replenishment (thread_at self.old.machine t).server }
        ensures state { self.new ≡ after (changes t (with_server plan)) self.old }
    {
        let (planned, moved) = self.table.plan(t);
        self.named.take_in(&moved);
        planned
    }

    pub fn refill_thread(&mut self, t: Tid) -> Refilled
        requires known { t < length self.old.names }
        requires server { is_some (thread_at self.old.machine t).server ≡ true }
        ensures value { Some result ≡ option_map refilled_of (thread_at self.old.machine t).server }
        ensures state { self.new ≡ after (changes t (with_server refill)) self.old }
    {
        let (refilled, moved) = self.table.refill(t);
        self.named.take_in(&moved);
        // the fields alone, and not what lies between them
        Refilled { ..refilled }
    }
}
