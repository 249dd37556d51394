//! A run.
ghost use Rattle.std.specs.Prelude.{◌≡◌, ◌≤◌, ◌<◌, ◌+◌, ◌-◌, ◌^◌, ℕ, [], None, Some, true, false};
ghost use Rattle.parts_tracer.specs.Tells.{Tells};
ghost use Rattle.rules_machine.specs.Eventful.{busy};
ghost use Rattle.rules_machine.specs.Runs.{ticks};
ghost use Rattle.rules_flat_code.specs.FlatBodies.{flat_bodies};
ghost use Rattle.rules_leaps.specs.Leap.{in_leaps};
ghost use Rattle.kernel_wakes.specs.Calls.{objects_in};
ghost use Rattle.kernel_leaps.specs.Fits.{StaysFit};
ghost use Rattle.kernel_settling.specs.Stood.{StoodRight};

use crate::leaps::leaps;
use kernel_state::Parts;
use parts_io::Sink;
use parts_steps::Steps;
use parts_tracer::Tracer;
use std::sync::ledger::Ledger;
use words_numbers::Tick;

/// How a run ended.
#[derive(Clone, Copy, Debug, PartialEq, Eq)]
pub enum RunEnd {
    /// The horizon was reached.
    Ended,
    /// This signal ended the process, at the horizon or before it.
    Killed(u8),
    /// A write failed.
    Stopped,
}

/// Runs in leaps to the horizon, until a signal ends the process, or until a write fails, in one step a leap, and one for
/// each unit that is passed.
#[tactic(auto, using(crate::proofs::Running::still_fits))]
pub(crate) fn run_leaps<K: Sink, L: Ledger>(
    p: &mut Parts,
    horizon: Tick,
    out: &mut Tracer<'_, K>,
    steps: &mut Steps<L>,
) -> RunEnd
    requires ahead { p.old.machine.now ≤ horizon }
    requires limit { horizon ≤ 10 ^ 18 }
    requires unfailed { out.old.failed ≡ false }
    requires quiet { p.old.direct ≡ [] }
    requires stood { StoodRight p.old.machine }
    requires fits { StaysFit p.old (objects_in p.old) }
    ensures state { out.new.failed ≡ false
        → p.new ≡ record p.old { machine = (ticks (flat_bodies p.old.code) (horizon - p.old.machine.now) p.old.machine).machine } }
    ensures told { Tells K.text K.faults p.old.names out.old out.new (ticks (flat_bodies p.old.code) (horizon - p.old.machine.now) p.old.machine).events }
    ensures ended { result ≡ RunEnd.Ended → (out.new.failed ≡ false) × (p.new.machine.killed ≡ None) }
    ensures killed { (signal : ℕ) → result ≡ RunEnd.Killed signal → (out.new.failed ≡ false) × (p.new.machine.killed ≡ Some signal) }
    ensures stopped { result ≡ RunEnd.Stopped → out.new.failed ≡ true }
    ensures stood { StoodRight p.new.machine }
    ensures quiet { p.new.direct ≡ [] }
    ensures fits { StaysFit p.new (objects_in p.new) }
    ensures later { p.old.machine.now ≤ p.new.machine.now }
    ensures not_beyond { p.new.machine.now ≤ horizon }
    ensures steps { steps.new ≤ steps.old + (in_leaps (flat_bodies p.old.code) (horizon - p.old.machine.now) p.old.machine).count }
    ensures busy { steps.new ≤ steps.old + busy (flat_bodies p.old.code) p.old.machine 0 (horizon - p.old.machine.now) + 1 }
{
    if let Some(signal) = p.killed() {
        return RunEnd::Killed(signal);
    }
    let total = horizon.get() - p.instant().get();
    let mut done = 0;
    'leaps: while done < total {
        done += leaps(p, total - done, out, steps);
        if out.failed() {
            return RunEnd::Stopped;
        }
        if let Some(signal) = p.killed() {
            return RunEnd::Killed(signal);
        }
    }
    RunEnd::Ended
}
