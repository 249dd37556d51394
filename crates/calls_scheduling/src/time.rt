//! Sleeping.
ghost use Rattle.std.specs.Prelude.{◌≡◌, ◌≤◌, ◌<◌, ◌+◌, ◌*◌, ◌^◌, Some, length, true};
ghost use Rattle.rules_machine.specs.Threads.{can_run};
ghost use Rattle.rules_machine.specs.Turns.{returns};
ghost use Rattle.rules_machine.specs.Timers.{sleeps_until};
ghost use Rattle.kernel_state.specs.RealTimes.{MayWaitUntil};
ghost use Rattle.kernel_state.specs.Does.{Does};
ghost use Rattle.kernel_state.specs.Caller.{caller};

use kernel_state::{Caller, Parts};
use kernel_threads::Wait;
use parts_io::Sink;
use parts_tracer::Tracer;
use words_numbers::{Res, Tick};

/// `nanosleep` and `clock_nanosleep`.
pub(crate) fn sleep_until<K: Sink>(
    p: &mut Parts,
    by: &Caller<'_>,
    at: Tick,
    out: &mut Tracer<'_, K>,
)
    requires known { by.now.thread < length p.old.names }
    requires runs { can_run p.old.machine by.now.thread ≡ true }
    requires modest { MayWaitUntil p.old.machine by.now.call.now (Some at) }
    ensures { Does K.text K.faults (sleeps_until (caller by.now) at) p.old p.new out.old out.new }
{
    if at <= p.instant() {
        p.returns(by, Res::Zero, 0, out);
    } else {
        p.block_unordered(by, Wait::Time, Some(at));
    }
}
