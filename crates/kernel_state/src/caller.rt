//! A thread that makes a call: its call returns, or it blocks.
ghost use Rattle.std.specs.Prelude.{◌≡◌, ◌<◌, None, length};
ghost use Rattle.rules_machine.specs.Priorities.{mutex_waited};
ghost use Rattle.rules_machine.specs.Turns.{returns};
ghost use Rattle.rules_machine.specs.Waking.{blocks, blocks_unordered};
ghost use Rattle.kernel_threads.specs.Plain.{wait_of};
ghost use Rattle.kernel_state.specs.Caller.{caller};
ghost use Rattle.kernel_state.specs.Callers.{CanBlock, IsRunning};
ghost use Rattle.kernel_state.specs.Does.{Does};
ghost use Rattle.kernel_state.specs.Kernel.{after};
ghost use Rattle.kernel_state.specs.RealTimes.{MayWaitUntil};
ghost use Rattle.kernel_state.specs.Waits.{CanWait};

use crate::parts::Parts;
use kernel_threads::Wait;
use parts_io::Sink;
use parts_tracer::Tracer;
use rules_machine::call_name;
use words_numbers::{Res, Tick, Tid};
use words_script::Call;

/// A thread, and the call that it makes.
#[derive(Clone, Copy)]
pub struct Caller<'a> {
    pub thread: Tid,
    pub call: &'a Call,
}

impl Parts {
    /// The caller's call returns.
    pub fn returns<K: Sink>(
        &mut self,
        by: &Caller<'_>,
        res: Res,
        value: u64,
        out: &mut Tracer<'_, K>,
    )
        requires { by.now.thread < length self.old.names }
        ensures { Does K.text K.faults (returns (caller by.now) res value) self.old self.new out.old out.new }
    {
        self.answer_thread(by.thread, res, value);
        self.tell_return::<K, 0>(by.thread, call_name(by.call), res, value, out);
    }

    /// The same. For `WAY` see `tell_return`.
    #[inline(always)]
    pub fn returns_by<K: Sink, const WAY: usize>(
        &mut self,
        by: &Caller<'_>,
        res: Res,
        value: u64,
        out: &mut Tracer<'_, K>,
    )
        requires { by.now.thread < length self.old.names }
        ensures { Does K.text K.faults (returns (caller by.now) res value) self.old self.new out.old out.new }
    {
        self.answer_thread(by.thread, res, value);
        self.tell_return::<K, WAY>(by.thread, call_name(by.call), res, value, out);
    }

    /// The caller blocks; its wait takes the next serial. A mutex that it waits for is owned, and to wait for it closes no cycle.
    #[inline(always)]
    #[tactic(auto, using(crate::proofs::Waits::awaits_none))]
    pub fn block(&mut self, by: &Caller<'_>, wait: Wait, due: Option<Tick>)
        requires can { CanBlock self.old by.now.thread }
        requires may { CanWait self.old.machine by.now.thread (mutex_waited (wait_of wait)) }
        requires modest { MayWaitUntil self.old.machine by.now.call.now due }
        ensures { self.new ≡ after (blocks (caller by.now) (wait_of wait) due) self.old }
    {
        let serial = self.take_serial();
        self.block_runner(by.thread, &wait, serial, &due, by.call);
    }

    /// A wait with no order among its waiters.
    #[inline(always)]
    #[tactic(auto, using(crate::proofs::Waits::awaits_none))]
    pub fn block_unordered(&mut self, by: &Caller<'_>, wait: Wait, due: Option<Tick>)
        requires caller { IsRunning self.old by.now.thread }
        requires unordered { mutex_waited (wait_of wait) ≡ None }
        requires modest { MayWaitUntil self.old.machine by.now.call.now due }
        ensures { self.new ≡ after (blocks_unordered (caller by.now) (wait_of wait) due) self.old }
    {
        self.block_runner(by.thread, &wait, 0, &due, by.call);
    }
}
