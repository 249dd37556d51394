//! Leaps.
ghost use Rattle.std.specs.Prelude.{◌≡◌, ◌≤◌, ◌<◌, ◌+◌, ◌-◌, ◌^◌, ◌&&◌, [], false, length, not, true};
ghost use Rattle.parts_tracer.specs.Tells.{Tells};
ghost use Rattle.rules_machine.specs.Runs.{ticks};
ghost use Rattle.rules_machine.specs.Threads.{is_blocked, thread_at};
ghost use Rattle.rules_flat_code.specs.FlatBodies.{flat_bodies};
ghost use Rattle.rules_leaps.specs.Leap.{in_leaps};
ghost use Rattle.script_code.specs.Fetched.{unit_of};
ghost use Rattle.laws_detail.specs.Rests.{OnlyTakeTime};
ghost use Rattle.kernel_wakes.specs.Calls.{objects_in};
ghost use Rattle.kernel_threads.specs.Lasting.{used_up};
ghost use Rattle.kernel_threads.specs.Running.{only_takes_time};
ghost use Rattle.kernel_leaps.specs.Fits.{StaysFit};
ghost use Rattle.kernel_leaps.specs.Passing.{HasLeapt, IsQuietTick, MayLeapOn, PassesNoUnit};
ghost use Rattle.kernel_settling.specs.Stood.{StoodRight};

use crate::instant::do_instant;
use crate::tick_ends::end_tick;
use crate::units::{complete_at_end, run_thread};
use calls_items::sweep;
use kernel_dispatch::prepare;
use kernel_settling::settle;
use kernel_state::Parts;
use kernel_threads::{Ran, TickEnd};
use parts_io::Sink;
use parts_steps::Steps;
use parts_tracer::Tracer;
use script_code::Fetched;
use std::sync::ledger::Ledger;
use words_numbers::Tid;

/// Ticks of a thread that ran at once.
#[derive(Clone, Copy)]
pub(crate) struct Passed {
    /// How many they were.
    pub(crate) ticks: u64,
    /// Whether the last of them neither completed a unit nor used up an interval or a capacity.
    pub(crate) is_quiet: bool,
    /// Whether they only took time: the unit does nothing at its end, and they used up neither an interval nor a capacity.
    pub(crate) is_still: bool,
}

// Whether what a thread has run used up neither its interval nor its capacity.
#[inline(always)]
fn uses_up_nothing(p: &Parts, t: Tid, was_high: bool) -> bool
    requires known { t < length p.now.names }
    ensures sure { result ≡ true → used_up was_high p.now.machine.quantum (thread_at p.now.machine t) ≡ false }
    ensures whenever { is_blocked (thread_at p.now.machine t).status ≡ false
        → used_up was_high p.now.machine.quantum (thread_at p.now.machine t) ≡ false → result ≡ true }
{
    if was_high && p.thread(t).capacity_left() == 0 {
        return false;
    }
    match p.tick_end(t, was_high) {
        TickEnd::Nothing => true,
        _ => false,
    }
}

// Whether what a thread has run neither completed its unit nor used anything up.
#[inline(always)]
fn ended_quietly(ran: &Ran, saves: bool) -> bool
    ensures { result ≡ (saves && not ran.now.is_complete) }
{
    saves && !ran.is_complete
}

// Whether what a thread has run did no more than take time: its unit does nothing at its end, and nothing is used up.
#[inline(always)]
fn only_took_time(p: &Parts, ran: &Ran, saves: bool) -> bool
    ensures { result ≡ (saves && only_takes_time (unit_of p.now.code ran.now.unit)) }
{
    // the clause alone speaks of it
    let _ = p;
    match ran.unit {
        Fetched::Run(_) | Fetched::Jump => saves,
        _ => false,
    }
}

/// Ticks of a thread, to the nearest due tick at most: the units that it passes, and a leap, each of them one step.
///
/// Nothing asks for `COMMAND`, 0 for `run` and 1 for `detail`: by it each command has a function of its own, which is inlined there.
#[inline(always)]
pub(crate) fn leap_thread<K: Sink, L: Ledger, const COMMAND: usize>(
    p: &mut Parts,
    t: Tid,
    near: u64,
    out: &mut Tracer<'_, K>,
    steps: &mut Steps<L>,
) -> Passed
    requires known { t < length p.old.names }
    requires quiet { p.old.direct ≡ [] }
    requires may { MayLeapOn near t p.old }
    ensures leapt { HasLeapt K.text K.faults near t result.ticks p.old p.new out.old out.new steps.old steps.new }
    ensures stood { StoodRight p.new.machine }
    ensures quiet { p.new.direct ≡ [] }
    ensures quiet_tick { result.is_quiet ≡ true → near ≤ 1 → IsQuietTick (flat_bodies p.old.code) p.old.machine.quantum (thread_at p.old.machine t) }
    ensures each_quiet_tick { near ≤ 1 → is_blocked (thread_at p.old.machine t).status ≡ false
        → IsQuietTick (flat_bodies p.old.code) p.old.machine.quantum (thread_at p.old.machine t) → result.is_quiet ≡ true }
    ensures still { result.is_still ≡ true → PassesNoUnit near t p.old → OnlyTakeTime (flat_bodies p.old.code) result.ticks t p.old.machine }
{
    let ran = run_thread(p, t, near, steps);
    let saves = uses_up_nothing(p, t, ran.was_high);
    let is_quiet = ended_quietly(&ran, saves);
    let is_still = only_took_time(p, &ran, saves);
    complete_at_end::<K, COMMAND>(p, t, &ran, out);
    settle(p);
    end_tick(p, ran.was_high, t, out);
    sweep(p, out);
    Passed {
        ticks: ran.passed + ran.ticks,
        is_quiet,
        is_still,
    }
}

/// A leap of at most so many ticks: to where something falls due, or a unit, an interval or a capacity ends; past each unit at whose end
/// nothing happens but that the same thread goes on. Each of these units is a step, and what follows is one more. The answer is how many
/// ticks it was.
#[inline(always)]
pub(crate) fn leaps<K: Sink, L: Ledger>(
    p: &mut Parts,
    most: u64,
    out: &mut Tracer<'_, K>,
    steps: &mut Steps<L>,
) -> u64
    requires quiet { p.old.direct ≡ [] }
    requires stood { StoodRight p.old.machine }
    requires fits { StaysFit p.old (objects_in p.old) }
    requires some { 1 ≤ most }
    requires early { p.old.machine.now + most ≤ 10 ^ 18 }
    ensures within { result ≤ most }
    ensures some { 1 ≤ result }
    ensures state { p.new ≡ record p.old { machine = (ticks (flat_bodies p.old.code) result p.old.machine).machine } }
    ensures told { Tells K.text K.faults p.old.names out.old out.new (ticks (flat_bodies p.old.code) result p.old.machine).events }
    ensures stood { StoodRight p.new.machine }
    ensures quiet { p.new.direct ≡ [] }
    ensures steps { steps.new + (in_leaps (flat_bodies p.old.code) (most - result) p.new.machine).count ≤ steps.old + (in_leaps (flat_bodies p.old.code) most p.old.machine).count }
{
    do_instant(p, out);
    if p.is_killed() {
        return most;
    }
    let to = prepare(p, out);
    let near = p.ticks_to_next(most);
    let Some(t) = to else {
        let k = near.max(1);
        p.leap(k, steps);
        return k;
    };
    leap_thread::<K, L, 0>(p, t, near, out, steps).ticks
}
