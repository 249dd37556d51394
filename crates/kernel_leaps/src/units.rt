//! A thread's units: its running, and what a unit does at its end.
ghost use Rattle.std.specs.Prelude.{◌≡◌, ◌≤◌, ◌<◌, ◌+◌, ◌^◌, ◌==◌, length, max, true};
ghost use Rattle.script_code.specs.Fetched.{unit_of};
ghost use Rattle.rules_machine.specs.Calls.{unit_effect};
ghost use Rattle.rules_machine.specs.Threads.{thread_at, top_left};
ghost use Rattle.rules_machine.specs.Ticks.{completes};
ghost use Rattle.rules_machine.specs.Turns.{becomes, changes, ◌▷◌};
ghost use Rattle.rules_flat_code.specs.FlatBodies.{flat_bodies};
ghost use Rattle.rules_leaps.specs.Leap.{later_by};
ghost use Rattle.rules_flat_code.specs.Placed.{ArePlaced};
ghost use Rattle.kernel_threads.specs.Handlers.{CanEnd};
ghost use Rattle.kernel_threads.specs.Running.{HasRun};
ghost use Rattle.laws_threads.specs.Within.{IsWithin};
ghost use Rattle.kernel_wakes.specs.Calls.{CanCall, objects_in};
ghost use Rattle.kernel_leaps.specs.Completes.{CanComplete};
ghost use Rattle.kernel_state.specs.Kernel.{after, told};
ghost use Rattle.kernel_state.specs.Does.{Does};

use crate::calls::{make_any, make_short};
use calls_threads::finish;
use kernel_state::Parts;
use kernel_threads::Ran;
use parts_io::Sink;
use parts_steps::Steps;
use parts_tracer::Tracer;
use script_code::{CallPlace, Fetched};
use std::sync::ledger::Ledger;
use words_numbers::Tid;

/// A thread runs by itself for at most so many ticks, but one at least, and the instant moves on. Each unit that it passes is a step, and
/// what it runs of the next is one more.
#[inline(always)]
pub(crate) fn run_thread<L: Ledger>(p: &mut Parts, t: Tid, near: u64, steps: &mut Steps<L>) -> Ran
    requires known { t < length p.old.names }
    requires placed { ArePlaced p.old.code (thread_at p.old.machine t).frames }
    requires ends { (thread_at p.old.machine t).is_ending ≡ true → CanEnd (length p.old.code.cleanups) (thread_at p.old.machine t) }
    requires within { IsWithin p.old.machine.now (thread_at p.old.machine t) }
    requires early { p.old.machine.now + max 1 near ≤ 10 ^ 18 }
    ensures ran { HasRun p.old.code near p.old.machine.quantum result (thread_at p.old.machine t) (thread_at p.new.machine t) (steps.old + 1) steps.new }
    ensures state { p.new ≡ after (λ s. s ▷ changes t (λ th. thread_at p.new.machine t) ▷ becomes (later_by (result.passed + result.ticks))) p.old }
    ensures few { result.passed + result.ticks ≤ max 1 near }
{
    let ran = p.run(t, near, steps);
    p.leap(ran.passed + ran.ticks, steps);
    ran
}

// What a unit does once it is complete. A short call is told by the unit itself, so that nothing is looked up.
#[inline(always)]
fn complete<K: Sink, const COMMAND: usize>(
    p: &mut Parts,
    t: Tid,
    unit: &Fetched,
    out: &mut Tracer<'_, K>,
)
    requires caller { CanCall p.old t }
    requires can { CanComplete (objects_in p.old) (thread_at p.old.machine t) (unit_of p.old.code unit.now) }
    ensures { Does K.text K.faults (unit_effect (flat_bodies p.old.code) t (unit_of p.old.code unit.now)) p.old p.new out.old out.new }
{
    match unit {
        Fetched::Run(_) | Fetched::Jump => (),
        Fetched::Make(place) => {
            let CallPlace { body, op } = *place;
            make_any(p, t, CallPlace { body, op }, out)
        }
        Fetched::Short(short) => make_short::<K, COMMAND>(p, t, *short, out),
        Fetched::Finish => finish(p, t, out),
    }
}

/// The effect of the unit, where no tick of it is left.
#[inline(always)]
pub(crate) fn complete_at_end<K: Sink, const COMMAND: usize>(
    p: &mut Parts,
    t: Tid,
    ran: &Ran,
    out: &mut Tracer<'_, K>,
)
    requires caller { CanCall p.old t }
    requires complete { ran.now.is_complete ≡ (top_left (thread_at p.old.machine t).frames == 0) }
    requires can { CanComplete (objects_in p.old) (thread_at p.old.machine t) (unit_of p.old.code ran.now.unit) }
    ensures { Does K.text K.faults (completes (flat_bodies p.old.code) t (unit_of p.old.code ran.now.unit)) p.old p.new out.old out.new }
{
    if ran.is_complete {
        complete::<K, COMMAND>(p, t, &ran.unit, out);
    }
}
