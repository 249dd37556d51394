//! The changes of one thread that leave its wait as it is, or end it.
ghost use Rattle.std.specs.Prelude.{◌≡◌, ◌<◌, ◌≤◌, ◌^◌, None, Some, is_some, length, max, option_map, true};
ghost use Rattle.rules_server.specs.Server.{activate, plan, refill, replenishment};
ghost use Rattle.rules_machine.specs.Scheduling.{takes_priority, with_policy, with_priority};
ghost use Rattle.rules_machine.specs.Servers.{with_server};
ghost use Rattle.rules_machine.specs.Threads.{thread_in, waiting_in};
ghost use Rattle.rules_machine.specs.Ticks.{consumed_in, without_slice};
ghost use Rattle.rules_machine.specs.Turns.{answered};
ghost use Rattle.rules_machine.specs.Waking.{woken};
ghost use Rattle.kernel_threads.specs.Ends.{refilled_of};
ghost use Rattle.kernel_threads.specs.Handlers.{CanTake};
ghost use Rattle.kernel_threads.specs.Running.{HasRun, HasTime};
ghost use Rattle.kernel_threads.specs.Sleeping.{waits_for_time};
ghost use Rattle.kernel_table.specs.Table as table;
ghost use Rattle.kernel_table.specs.Table.{with_thread};
ghost use Rattle.kernel_table.specs.Movers.{KeepsPriorities, MovesPriority};

use crate::links::{reassign, reassign_changed, stands_nowhere, stop_waiting};
use crate::movers::thread_of;
use crate::plans::take_plan;
use crate::real_items::drop_wait;
use crate::table::Table;
use crate::times::{end_sleep, retime_refill, time_refill, time_wait};
use kernel_threads::{Ran, Refilled};
use parts_server::Replenish;
use parts_steps::Steps;
use script_code::Code;
use std::sync::ledger::Ledger;
use words_numbers::{Prio, Res, Tick, Tid};
use words_script::Policy;

impl Table {
    /// The last call of its body has that answer. No execution priority changes.
    pub fn answer(&mut self, t: Tid, res: Res, value: u64)
        requires { t < length self.old.threads }
        ensures { KeepsPriorities (with_thread t (answered res value)) self.old self.new }
    {
        self.threads.get_mut(t).answer(res, value);
    }

    /// It is runnable, with that answer and a new round robin interval, and waits for nothing. The answer is the one thread that stands
    /// among no waiters and whose execution priority changed; `None` exactly where there is none. Mostly it waited for an instant alone.
    #[inline(always)]
    pub fn wake(&mut self, t: Tid, res: Res, value: u64) -> Option<Tid>
        requires { t < length self.old.threads }
        ensures { MovesPriority (with_thread t (woken res value)) self.old self.new result }
    {
        if self.threads.get(t).waits_for_time() {
            self.wake_sleeper(t, res, value);
            return None;
        }
        self.wake_in_full(t, res, value)
    }

    // Whatever it waits for.
    #[inline(always)]
    #[tactic(auto, using(crate::proofs::Ties::placed))]
    fn wake_in_full(&mut self, t: Tid, res: Res, value: u64) -> Option<Tid>
        requires { t < length self.old.threads }
        ensures { MovesPriority (with_thread t (woken res value)) self.old self.new result }
    {
        let moved = stop_waiting(&mut self.chain, &mut self.waits, t);
        self.threads.get_mut(t).wake(res, value);
        time_wait(&mut self.wheel, t, None);
        drop_wait(&mut self.real_waits, t);
        thread_of(moved)
    }

    // Where it waits for nothing but an instant. No execution priority changes of a thread that stands among no waiters.
    #[inline(always)]
    #[tactic(auto, using(crate::proofs::Ties::placed))]
    fn wake_sleeper(&mut self, t: Tid, res: Res, value: u64)
        requires known { t < length self.old.threads }
        requires sleeps { waits_for_time (waiting_in (thread_in self.old.threads t).status) ≡ true }
        ensures { MovesPriority (with_thread t (woken res value)) self.old self.new None }
    {
        stands_nowhere(&self.chain, &self.waits, t);
        self.threads.get_mut(t).wake(res, value);
        end_sleep(&mut self.wheel, t);
        drop_wait(&mut self.real_waits, t);
    }

    /// Its priority is that one; of a sporadic or strict thread the high priority. The answer is the one thread that stands among
    /// no waiters and whose execution priority changed; `None` exactly where there is none.
    #[tactic(auto, using(crate::proofs::Ties::placed))]
    pub fn set_priority(&mut self, t: Tid, p: Prio) -> Option<Tid>
        requires known { t < length self.old.threads }
        requires takes { takes_priority (thread_in self.old.threads t).policy p ≡ true }
        ensures { MovesPriority (with_thread t (with_priority p)) self.old self.new result }
    {
        self.threads.get_mut(t).set_priority(p);
        thread_of(reassign(&self.threads, &mut self.chain, &mut self.waits, t))
    }

    /// The activation time of its server is now. No execution priority changes.
    pub fn activate(&mut self, t: Tid, now: Tick)
        requires known { t < length self.old.threads }
        requires unused { consumed_in (thread_in self.old.threads t).server ≡ 0 }
        requires early { now ≤ 10 ^ 18 }
        ensures { KeepsPriorities (with_thread t (with_server (activate now))) self.old self.new }
    {
        self.threads.get_mut(t).activate(now);
    }

    /// Its round robin interval begins anew. No execution priority changes.
    pub fn clear_slice(&mut self, t: Tid)
        requires { t < length self.old.threads }
        ensures { KeepsPriorities (with_thread t without_slice) self.old self.new }
    {
        self.threads.get_mut(t).clear_slice();
    }

    /// It has that policy, and a new server where it is sporadic or strict. The answer is the one thread that stands among no
    /// waiters and whose execution priority changed; `None` exactly where there is none.
    #[tactic(auto, using(crate::proofs::Ties::placed))]
    pub fn set_policy(&mut self, t: Tid, new: Policy, now: Tick) -> Option<Tid>
        requires known { t < length self.old.threads }
        requires early { now ≤ 10 ^ 18 }
        ensures { MovesPriority (with_thread t (with_policy new now)) self.old self.new result }
    {
        self.threads.get_mut(t).set_policy(new, now);
        retime_refill(&self.threads, &mut self.wheel, t);
        thread_of(reassign(&self.threads, &mut self.chain, &mut self.waits, t))
    }

    /// What its server consumed becomes a pending replenishment. The second answer is the one thread that stands among no waiters and whose
    /// execution priority changed; `None` exactly where there is none.
    #[tactic(auto, using(crate::proofs::Ties::placed))]
    pub fn plan(&mut self, t: Tid) -> (Replenish, Option<Tid>)
        requires known { t < length self.old.threads }
        requires used { 1 ≤ consumed_in (thread_in self.old.threads t).server }
        ensures value { Some result.0 ≡ option_map replenishment (thread_in self.old.threads t).server }
        ensures change { MovesPriority (with_thread t (with_server plan)) self.old self.new result.1 }
    {
        let planned = self.threads.get_mut(t).plan_next();
        let moved = take_plan(
            &self.threads,
            &mut self.chain,
            &mut self.waits,
            &mut self.wheel,
            t,
            &planned,
        );
        (planned.replenish, thread_of(moved))
    }

    /// The oldest pending replenishment of its server is carried out. The second answer is the one thread that stands among no waiters and
    /// whose execution priority changed; `None` exactly where there is none.
    #[inline(always)]
    #[tactic(auto, using(crate::proofs::Ties::placed))]
    pub fn refill(&mut self, t: Tid) -> (Refilled, Option<Tid>)
        requires known { t < length self.old.threads }
        requires server { is_some (thread_in self.old.threads t).server ≡ true }
        ensures value { Some result.0 ≡ option_map refilled_of (thread_in self.old.threads t).server }
        ensures change { MovesPriority (with_thread t (with_server refill)) self.old self.new result.1 }
    {
        let (refilled, next) = self.threads.get_mut(t).refill_oldest();
        time_refill(&mut self.wheel, t, next);
        let moved = reassign_changed(
            &self.threads,
            &mut self.chain,
            &mut self.waits,
            t,
            refilled.regains_high,
        );
        (refilled, thread_of(moved))
    }

    /// It runs by itself for at most so many ticks, but one at least. The second answer is the one thread that stands among no waiters and
    /// whose execution priority changed; `None` exactly where there is none. Each unit that it passes is a step.
    #[inline(always)]
    #[tactic(auto, using(crate::proofs::Ties::placed))]
    pub fn run<L: Ledger>(
        &mut self,
        t: Tid,
        code: &Code,
        most: u64,
        quantum: u64,
        steps: &mut Steps<L>,
    ) -> (Ran, Option<Tid>)
        requires known { t < length self.old.threads }
        requires can { CanTake code.now (thread_in self.old.threads t) }
        requires room { HasTime (max 1 most) (thread_in self.old.threads t) }
        ensures change { MovesPriority (with_thread t (λ th. thread_in self.new.threads t)) self.old self.new result.1 }
        ensures ran { HasRun code.now most quantum result.0 (thread_in self.old.threads t) (thread_in self.new.threads t) steps.old steps.new }
    {
        let ran = self.threads.get_mut(t).run(code, most, quantum, steps);
        let moved = reassign_changed(
            &self.threads,
            &mut self.chain,
            &mut self.waits,
            t,
            ran.was_high,
        );
        (ran, thread_of(moved))
    }
}
