//! A call that must wait for a queue.
ghost use Rattle.std.specs.Prelude.{◌≡◌, ◌<◌, None, length};
ghost use Rattle.rules_machine.specs.Priorities.{mutex_waited};
ghost use Rattle.rules_machine.specs.Queues.{blocks_unless_nonblock};
ghost use Rattle.kernel_threads.specs.Plain.{wait_of};
ghost use Rattle.kernel_state.specs.RealTimes.{MayWaitUntil};
ghost use Rattle.kernel_state.specs.Does.{Does};
ghost use Rattle.kernel_state.specs.Caller.{caller};
ghost use Rattle.kernel_state.specs.Callers.{CanBlock};

use kernel_state::{Caller, Parts};
use kernel_threads::Wait;
use kernel_wakes::block_unless_late;
use parts_io::Sink;
use parts_tracer::Tracer;
use words_numbers::{ObjId, Res, Tick};

/// The call is refused where calls on the queue do not block; and else the caller waits, unless its time has passed.
#[inline(always)]
pub(crate) fn block_unless_nonblock<K: Sink>(
    p: &mut Parts,
    by: &Caller<'_>,
    q: ObjId,
    wait: Wait,
    due: Option<Tick>,
    out: &mut Tracer<'_, K>,
)
    requires can { CanBlock p.old by.now.thread }
    requires queue { q < length p.old.machine.queues }
    requires other { mutex_waited (wait_of wait) ≡ None }
    requires modest { MayWaitUntil p.old.machine by.now.call.now due }
    ensures { Does K.text K.faults (blocks_unless_nonblock (caller by.now) q (wait_of wait) due) p.old p.new out.old out.new }
{
    if p.queue(q).is_nonblock() {
        p.returns(by, Res::Again, 0, out);
    } else {
        block_unless_late(p, by, wait, due, out);
    }
}
