//! The creation of threads.
ghost use Rattle.words_numbers.specs.declared.res.Res.TheVariants as res;
ghost use Rattle.rules_machine.specs.Threads.{is_dormant, thread_at};
ghost use Rattle.rules_machine.specs.Turns.{returns, ◌▷◌};
ghost use Rattle.rules_machine.specs.Waking.{starts};
ghost use Rattle.rules_machine.specs.Lives.{creates, inherited_mask};
ghost use Rattle.rules_flat_code.specs.FlatBodies.{flat_bodies};
ghost use Rattle.kernel_state.specs.Does.{Does};
ghost use Rattle.kernel_state.specs.Caller.{caller};
ghost use Rattle.kernel_wakes.specs.Calls.{CanStart};

use kernel_state::{Caller, Parts};
use kernel_wakes::start;
use parts_io::Sink;
use parts_tracer::Tracer;
use words_numbers::{Res, Tid};

// The thread starts, once the call has returned.
fn create_dormant<K: Sink>(p: &mut Parts, by: &Caller<'_>, u: Tid, out: &mut Tracer<'_, K>)
    requires { CanStart p.old by.now.thread u }
    ensures { Does K.text K.faults (λ s. s ▷ returns (caller by.now) res.Zero 0 ▷ starts (flat_bodies p.old.code) u (inherited_mask (thread_at p.old.machine by.now.thread))) p.old p.new out.old out.new }
{
    let mask = p.thread(by.thread).inherited_mask();
    p.returns(by, Res::Zero, 0, out);
    start(p, u, mask, out);
}

/// `pthread_create`.
pub(crate) fn create<K: Sink>(p: &mut Parts, by: &Caller<'_>, u: Tid, out: &mut Tracer<'_, K>)
    requires { CanStart p.old by.now.thread u }
    ensures { Does K.text K.faults (creates (flat_bodies p.old.code) (caller by.now) u) p.old p.new out.old out.new }
{
    if p.thread(u).is_dormant() {
        create_dormant(p, by, u, out);
    } else {
        p.returns(by, Res::Again, 0, out);
    }
}
