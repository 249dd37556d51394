//! Masks: `pthread_sigmask`.
ghost use Rattle.std.specs.Prelude.{◌<◌, ℕ, length};
ghost use Rattle.rules_machine.specs.Signals.{sets_mask, with_signals, without_signals};
ghost use Rattle.kernel_state.specs.Does.{Does};
ghost use Rattle.kernel_state.specs.Caller.{caller};

use kernel_state::{Caller, Parts};
use parts_io::Sink;
use parts_tracer::Tracer;
use words_numbers::{Res, SigSet};

/// The thread blocks the signals of a set.
pub(crate) fn sigmask_set<K: Sink>(
    p: &mut Parts,
    by: &Caller<'_>,
    mask: SigSet,
    out: &mut Tracer<'_, K>,
)
    requires { by.now.thread < length p.old.names }
    ensures { Does K.text K.faults (sets_mask (caller by.now) (λ (was : ℕ). mask)) p.old p.new out.old out.new }
{
    p.set_mask(by.thread, mask);
    p.returns(by, Res::Zero, 0, out);
}

/// The thread blocks those of a set as well.
pub(crate) fn sigmask_block<K: Sink>(
    p: &mut Parts,
    by: &Caller<'_>,
    more: SigSet,
    out: &mut Tracer<'_, K>,
)
    requires { by.now.thread < length p.old.names }
    ensures { Does K.text K.faults (sets_mask (caller by.now) (with_signals more)) p.old p.new out.old out.new }
{
    let mask = p.thread(by.thread).mask_with(more);
    sigmask_set(p, by, mask, out);
}

/// The thread no longer blocks those of a set.
pub(crate) fn sigmask_unblock<K: Sink>(
    p: &mut Parts,
    by: &Caller<'_>,
    fewer: SigSet,
    out: &mut Tracer<'_, K>,
)
    requires { by.now.thread < length p.old.names }
    ensures { Does K.text K.faults (sets_mask (caller by.now) (without_signals fewer)) p.old p.new out.old out.new }
{
    let mask = p.thread(by.thread).mask_without(fewer);
    sigmask_set(p, by, mask, out);
}
