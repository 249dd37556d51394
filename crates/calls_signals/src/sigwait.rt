//! Waiting for signals: `sigwaitinfo`, and with ticks `sigtimedwait`.
ghost use Rattle.std.specs.Prelude.{◌≡◌, ◌≤◌, ◌<◌, ◌+◌, ◌^◌, Contains, IfSome, Some, false, length};
ghost use Rattle.words_numbers.specs.declared.res.Res.TheVariants as res;
ghost use Rattle.rules_machine.specs.Clock.{waits_on_real};
ghost use Rattle.rules_machine.specs.Signals.{delivers, waits_signal, blocks_for_signal, without_record};
ghost use Rattle.rules_machine.specs.Turns.{changes_pending, returns, ◌▷◌};
ghost use Rattle.kernel_state.specs.Does.{Does};
ghost use Rattle.kernel_state.specs.Caller.{caller};
ghost use Rattle.kernel_state.specs.Callers.{CanBlock};

use calls_generation::deliver;
use kernel_signals::SignalRecord;
use kernel_state::{Caller, Parts};
use kernel_threads::Wait;
use parts_io::Sink;
use parts_tracer::Tracer;
use words_numbers::{Res, SigSet, Tick};

// A pending record is accepted.
fn take<K: Sink>(p: &mut Parts, by: &Caller<'_>, r: &SignalRecord, out: &mut Tracer<'_, K>)
    requires known { by.now.thread < length p.old.names }
    requires pending { Contains p.old.machine.pending r.now }
    ensures { Does K.text K.faults (λ s. s ▷ changes_pending (without_record r.now) ▷ delivers by.now.thread r.now ▷ returns (caller by.now) res.Zero r.now.signal) p.old p.new out.old out.new }
{
    p.take_record(r);
    deliver(p, by.thread, r, out);
    p.returns(by, Res::Zero, r.signal() as u64, out);
}

// The caller blocks for so many ticks, or returns where that is none.
#[tactic(auto, using(crate::proofs::Awaited::waits_some_ticks, crate::proofs::Awaited::told_some_ticks))]
fn wait_at_most<K: Sink>(
    p: &mut Parts,
    by: &Caller<'_>,
    awaited: SigSet,
    n: u64,
    out: &mut Tracer<'_, K>,
)
    requires can { CanBlock p.old by.now.thread }
    requires ticks { n ≤ 10 ^ 18 }
    requires early { p.old.machine.now ≤ 10 ^ 18 }
    requires plain { waits_on_real by.now.call.now ≡ false }
    ensures { Does K.text K.faults (blocks_for_signal (Some n) (caller by.now) awaited) p.old p.new out.old out.new }
{
    if n == 0 {
        p.returns(by, Res::Again, 0, out);
    } else {
        let at = p.instant().plus(n);
        p.block(by, Wait::Signal(awaited), Some(at));
    }
}

// Nothing is pending: the caller blocks, or returns where no time is given to wait.
fn wait_ticks<K: Sink>(
    p: &mut Parts,
    by: &Caller<'_>,
    awaited: SigSet,
    ticks: Option<u64>,
    out: &mut Tracer<'_, K>,
)
    requires can { CanBlock p.old by.now.thread }
    requires ticks { IfSome ticks (λ n. n ≤ 10 ^ 18) }
    requires early { p.old.machine.now ≤ 10 ^ 18 }
    requires plain { waits_on_real by.now.call.now ≡ false }
    ensures { Does K.text K.faults (blocks_for_signal ticks (caller by.now) awaited) p.old p.new out.old out.new }
{
    match ticks {
        None => p.block(by, Wait::Signal(awaited), None),
        Some(n) => wait_at_most(p, by, awaited, n, out),
    }
}

/// A pending record of the set is accepted, whatever its action and the mask.
#[tactic(auto, using(crate::proofs::Awaited::waits_some, crate::proofs::Awaited::waits_none, crate::proofs::Awaited::told_some, crate::proofs::Awaited::told_none))]
pub(crate) fn sigtimedwait<K: Sink>(
    p: &mut Parts,
    by: &Caller<'_>,
    awaited: SigSet,
    ticks: Option<u64>,
    out: &mut Tracer<'_, K>,
)
    requires can { CanBlock p.old by.now.thread }
    requires ticks { IfSome ticks (λ n. n ≤ 10 ^ 18) }
    requires early { p.old.machine.now ≤ 10 ^ 18 }
    requires plain { waits_on_real by.now.call.now ≡ false }
    ensures { Does K.text K.faults (waits_signal ticks (caller by.now) awaited) p.old p.new out.old out.new }
{
    match p.next_awaited(by.thread, awaited) {
        Some(r) => take(p, by, &r, out),
        None => wait_ticks(p, by, awaited, ticks, out),
    }
}
