//! A call that must wait.
ghost use Rattle.std.specs.Prelude.{◌≡◌, None};
ghost use Rattle.rules_machine.specs.Priorities.{mutex_waited};
ghost use Rattle.rules_machine.specs.Semaphores.{blocks_unless_late};
ghost use Rattle.rules_machine.specs.Turns.{is_late};
ghost use Rattle.kernel_threads.specs.Plain.{wait_of};
ghost use Rattle.kernel_state.specs.RealTimes.{MayWaitUntil};
ghost use Rattle.kernel_state.specs.Does.{Does};
ghost use Rattle.kernel_state.specs.Caller.{caller};
ghost use Rattle.kernel_state.specs.Callers.{CanBlock};

use kernel_state::{Caller, Parts};
use kernel_threads::Wait;
use parts_io::Sink;
use parts_tracer::Tracer;
use words_numbers::{Res, Tick};

/// Whether an absolute time is there, and is not in the future.
pub fn is_late(p: &Parts, due: &Option<Tick>) -> bool
    ensures { result ≡ is_late due.now p.now.machine }
{
    match due {
        None => false,
        Some(at) => *at <= p.instant(),
    }
}

/// The caller waits for something that is no mutex, until that tick where there is one; where the tick is not in the future, its call
/// returns at once.
#[inline(always)]
pub fn block_unless_late<K: Sink>(
    p: &mut Parts,
    by: &Caller<'_>,
    wait: Wait,
    due: Option<Tick>,
    out: &mut Tracer<'_, K>,
)
    requires can { CanBlock p.old by.now.thread }
    requires other { mutex_waited (wait_of wait) ≡ None }
    requires modest { MayWaitUntil p.old.machine by.now.call.now due }
    ensures { Does K.text K.faults (blocks_unless_late (caller by.now) (wait_of wait) due) p.old p.new out.old out.new }
{
    if is_late(p, &due) {
        p.returns(by, Res::Timedout, 0, out);
    } else {
        p.block(by, wait, due);
    }
}
