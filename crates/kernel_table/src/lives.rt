//! A thread starts, waits and ends.
ghost use Rattle.std.specs.Prelude.{◌≡◌, ◌<◌, ◌≤◌, ◌^◌, ◌∷◌, [], None, Some, length, true};
ghost use Rattle.rules_machine.specs.Lives.{without_life};
ghost use Rattle.rules_machine.specs.Priorities.{mutex_awaited_by, mutex_waited};
ghost use Rattle.rules_machine.specs.Servers.{server_of};
ghost use Rattle.rules_machine.specs.State.{for_mutex_again};
ghost use Rattle.rules_machine.specs.Threads.{is_blocked, is_runnable, thread_in, waiting_in};
ghost use Rattle.rules_machine.specs.Waking.{call_in, put_to_wait};
ghost use Rattle.kernel_threads.specs.Plain.{status_of, wait_of};
ghost use Rattle.kernel_table.specs.Table as table;
ghost use Rattle.kernel_table.specs.Table.{CanAwait, with_thread};
ghost use Rattle.kernel_table.specs.Movers.{MovesPriority, MovesPriorityBeside};

use crate::links::{await_mutex, begin_waiting, reassign, stands_nowhere, stop_waiting};
use crate::movers::{beside, thread_of};
use crate::real_items::{drop_wait, keep_runner};
use crate::table::Table;
use crate::times::{end_sleep, retime, time_runner};
use kernel_threads::{Frame, Status, Wait};
use rules_machine::CondEnd;
use words_numbers::{ObjId, SigSet, Tick, Tid};
use words_script::Call;

impl Table {
    /// It is runnable in that frame, with a new server where it is sporadic or strict. The answer is the one other thread that
    /// stands among no waiters and whose execution priority changed; `None` exactly where there is none.
    #[tactic(auto, using(crate::proofs::Ties::placed))]
    pub fn start(&mut self, t: Tid, mask: SigSet, now: Tick, main: Frame) -> Option<Tid>
        requires known { t < length self.old.threads }
        requires early { now ≤ 10 ^ 18 }
        ensures { MovesPriorityBeside t (with_thread t (λ th. record th { status = status_of Status.Runnable; slice = 0; mask = mask; frames = main ∷ []; server = server_of th.policy now })) self.old self.new result }
    {
        let moved = stop_waiting(&mut self.chain, &mut self.waits, t);
        self.threads.get_mut(t).start(mask, now, main);
        retime(&self.threads, &mut self.wheel, t);
        drop_wait(&mut self.real_waits, t);
        reassign(&self.threads, &mut self.chain, &mut self.waits, t);
        beside(t, thread_of(moved))
    }

    /// It has ended. What it owns stays owned. The answer is the one other thread that stands among no waiters and whose execution priority
    /// changed; `None` exactly where there is none.
    #[tactic(auto, using(crate::proofs::Ties::placed))]
    pub fn end(&mut self, t: Tid) -> Option<Tid>
        requires { t < length self.old.threads }
        ensures { MovesPriorityBeside t (with_thread t without_life) self.old self.new result }
    {
        let moved = stop_waiting(&mut self.chain, &mut self.waits, t);
        self.threads.get_mut(t).end();
        retime(&self.threads, &mut self.wheel, t);
        drop_wait(&mut self.real_waits, t);
        reassign(&self.threads, &mut self.chain, &mut self.waits, t);
        beside(t, thread_of(moved))
    }

    /// It waits; what it waited for before, it leaves. The mutex that it begins to await is owned, and no cycle comes of it. The answer is
    /// the one thread that stands among no waiters and whose execution priority changed; `None` exactly where there is none.
    #[inline(always)]
    #[tactic(auto, using(crate::proofs::Ties::placed))]
    pub fn block_again(&mut self, t: Tid, k: ObjId, how: CondEnd, serial: u64) -> Option<Tid>
        requires known { t < length self.old.threads }
        requires blocked { is_blocked (thread_in self.old.threads t).status ≡ true }
        requires waits_not { mutex_awaited_by (thread_in self.old.threads t) ≡ None }
        requires may { CanAwait self.old t (Some k) }
        ensures { MovesPriority (with_thread t (put_to_wait (record { wait = for_mutex_again k how; serial = serial; due = None; call = call_in (waiting_in (thread_in self.old.threads t).status) }))) self.old self.new result }
    {
        stop_waiting(&mut self.chain, &mut self.waits, t);
        drop_wait(&mut self.real_waits, t);
        self.threads.get_mut(t).block_again(k, how, serial);
        let moved = await_mutex(&mut self.chain, &mut self.waits, t, k, serial);
        end_sleep(&mut self.wheel, t);
        thread_of(moved)
    }

    /// It can run, and waits from now on. The answer is as that of `block_again`.
    #[inline(always)]
    #[tactic(auto, using(crate::proofs::Ties::placed))]
    pub fn block_runner(
        &mut self,
        t: Tid,
        wait: &Wait,
        serial: u64,
        due: &Option<Tick>,
        call: &Call,
    ) -> Option<Tid>
        requires known { t < length self.old.threads }
        requires runs { is_runnable (thread_in self.old.threads t).status ≡ true }
        requires may { CanAwait self.old t (mutex_waited (wait_of wait.now)) }
        ensures { MovesPriority (with_thread t (put_to_wait (record { wait = wait_of wait.now; serial = serial; due = due.now; call = call.now }))) self.old self.new result }
    {
        stands_nowhere(&self.chain, &self.waits, t);
        keep_runner(&mut self.real_waits, t, due, call);
        self.threads.get_mut(t).block(wait, serial, due, call);
        let moved = begin_waiting(&mut self.chain, &mut self.waits, t, wait, serial);
        time_runner(&mut self.wheel, t, due);
        thread_of(moved)
    }
}
