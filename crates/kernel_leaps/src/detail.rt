//! A run with the facts that change behind the lines of each instant.
ghost use Rattle.std.specs.Prelude.{◌≡◌, ◌≤◌, ◌<◌, ◌+◌, ◌-◌, ◌^◌, ◌&&◌, ℕ, [], IfSome, None, Some, false, length, max, min, not, true};
ghost use Rattle.words_trace.specs.Text.{lines};
ghost use Rattle.rules_facts.specs.Detail.{detail};
ghost use Rattle.rules_machine.specs.Dispatch.{head};
ghost use Rattle.rules_machine.specs.DueItems.{instant, next_item};
ghost use Rattle.rules_machine.specs.Eventful.{has_item};
ghost use Rattle.rules_machine.specs.Machine.{closing};
ghost use Rattle.rules_machine.specs.Ticks.{prepares};
ghost use Rattle.rules_machine.specs.Servers.{has_run};
ghost use Rattle.rules_machine.specs.Threads.{is_blocked, thread_at, top_left};
ghost use Rattle.rules_machine.specs.declared.dispatch.LastDispatch.TheVariants as last;
ghost use Rattle.rules_leaps.specs.Leap.{leap_runs};
ghost use Rattle.rules_machine.specs.WellFormed.{IsWellFormed};
ghost use Rattle.rules_flat_code.specs.FlatBodies.{flat_bodies};
ghost use Rattle.rules_flat_code.specs.Runnable.{IsRunnable};
ghost use Rattle.parts_tracer.specs.Printed.{Printed, outlet};
ghost use Rattle.parts_tracer.specs.Tells.{Tells};
ghost use Rattle.laws_detail.specs.Rests.{OnlyTakeTime};
ghost use Rattle.kernel_wakes.specs.Calls.{objects_in};
ghost use Rattle.kernel_leaps.specs.Detail.{AreBefore, HasGoneOn, HaveRoomsFor, IsAfterQuietTick, Stops, Writes, steps_left, told_by};
ghost use Rattle.kernel_leaps.specs.Fits.{ItemsFit, StaysFit};
ghost use Rattle.kernel_leaps.specs.Passing.{IsQuietTick, MayLeapOn, PassesNoUnit, leap_of};
ghost use Rattle.kernel_leaps.specs.Ran.{ticked_by};
ghost use Rattle.kernel_leaps.specs.Shown.{HasFewObjects};
ghost use Rattle.kernel_state.specs.Kernel.{after, opened, told};
ghost use Rattle.kernel_settling.specs.Stood.{StoodRight};

use crate::fact_texts::FactTexts;
use crate::instant::do_instant;
use crate::leaps::{Passed, leap_thread};
use kernel_dispatch::{prepare, report};
use kernel_state::Parts;
use parts_io::Sink;
use parts_steps::Steps;
use parts_tracer::Tracer;
use std::sync::ledger::Ledger;
use words_numbers::{Tick, Tid};
use words_script::Script;

// Writes the lines of the items of the instant, which it handles, and answers whether a write failed.
fn write_items<K: Sink>(p: &mut Parts, sink: &mut K) -> bool
    requires quiet { p.old.direct ≡ [] }
    requires stood { StoodRight p.old.machine }
    requires fits { ItemsFit p.old (objects_in p.old) }
    requires early { p.old.machine.now ≤ 10 ^ 18 }
    ensures state { p.new ≡ after (instant (flat_bodies p.old.code)) p.old }
    ensures told { Printed (outlet K.text K.faults false sink.old) (outlet K.text K.faults result sink.new) (lines p.old.names (told (instant (flat_bodies p.old.code)) p.old)) }
    ensures stood { StoodRight p.new.machine }
    ensures quiet { p.new.direct ≡ [] }
{
    let mut out = Tracer::new(sink);
    do_instant(p, &mut out);
    out.failed()
}

// Writes the lines of what precedes the tick of the head. The second answer is whether a write failed.
fn write_dispatch<K: Sink>(p: &mut Parts, sink: &mut K) -> (Option<Tid>, bool)
    requires latest { (u : ℕ) → has_run (thread_at p.old.machine u).server ≡ true → p.old.machine.last ≡ last.Ran u }
    requires early { p.old.machine.now ≤ 10 ^ 18 }
    ensures top { result.0 ≡ head p.old.machine }
    ensures known { IfSome result.0 (λ t. t < length p.old.names) }
    ensures state { p.new ≡ after (prepares (head p.old.machine)) p.old }
    ensures told { Printed (outlet K.text K.faults false sink.old) (outlet K.text K.faults result.1 sink.new) (lines p.old.names (told (prepares (head p.old.machine)) p.old)) }
{
    let mut out = Tracer::new(sink);
    let to = prepare(p, &mut out);
    (to, out.failed())
}

// Whether nothing is due at the instant.
fn is_idle(p: &mut Parts) -> bool
    ensures idle { result ≡ true → next_item p.old.machine ≡ None }
    ensures whenever { result ≡ not (has_item p.old.machine) }
    ensures same { p.new ≡ p.old }
{
    p.next_item().is_none()
}

// Whether the instant is no eventful one: the tick that led to it was a quiet one, and nothing is due at it.
fn is_calm(is_after_quiet: bool, is_idle: bool) -> bool
    ensures after { result ≡ true → is_after_quiet ≡ true }
    ensures idle { result ≡ true → is_idle ≡ true }
    ensures whenever { result ≡ (is_after_quiet && is_idle) }
{
    is_after_quiet && is_idle
}

// How many ticks may follow at once: one, or where the facts rest from here on all that are left.
fn most_at_once(left: u64, calm: bool) -> u64
    requires { 1 ≤ left }
    ensures one { calm ≡ false → result ≡ 1 }
    ensures all { calm ≡ true → result ≡ left }
    ensures some { 1 ≤ result }
    ensures within { result ≤ left }
{
    if calm { left } else { 1 }
}

// No more of them than are left of the unit that the thread is in, and one where it takes a new one.
fn ticks_in_unit(p: &Parts, t: Tid, near: u64) -> u64
    requires { t < length p.now.names }
    ensures { result ≡ min near (max 1 (top_left (thread_at p.now.machine t).frames)) }
{
    near.min(p.thread(t).left().max(1))
}

// Ticks of a thread that passes no unit in them.
fn leap_in_unit<K: Sink, L: Ledger>(
    p: &mut Parts,
    t: Tid,
    near: u64,
    out: &mut Tracer<'_, K>,
    steps: &mut Steps<L>,
) -> Passed
    requires known { t < length p.old.names }
    requires quiet { p.old.direct ≡ [] }
    requires may { MayLeapOn near t p.old }
    requires alone { PassesNoUnit near t p.old }
    ensures long { result.ticks ≡ leap_of near t p.old }
    ensures state { p.new ≡ after (leap_runs (flat_bodies p.old.code) result.ticks (Some t)) p.old }
    ensures told { Tells K.text K.faults p.old.names out.old out.new (told (leap_runs (flat_bodies p.old.code) result.ticks (Some t)) p.old) }
    ensures stood { StoodRight p.new.machine }
    ensures quiet { p.new.direct ≡ [] }
    ensures quiet_tick { result.is_quiet ≡ true → near ≤ 1 → IsQuietTick (flat_bodies p.old.code) p.old.machine.quantum (thread_at p.old.machine t) }
    ensures each_quiet_tick { near ≤ 1 → is_blocked (thread_at p.old.machine t).status ≡ false
        → IsQuietTick (flat_bodies p.old.code) p.old.machine.quantum (thread_at p.old.machine t) → result.is_quiet ≡ true }
    ensures still { result.is_still ≡ true → OnlyTakeTime (flat_bodies p.old.code) result.ticks t p.old.machine }
    ensures step { steps.new ≡ steps.old + 1 }
{
    leap_thread::<K, L, 1>(p, t, near, out, steps)
}

// Writes the lines of what ends ticks of a thread. The second answer is whether a write failed.
fn write_ticks<K: Sink, L: Ledger>(
    p: &mut Parts,
    t: Tid,
    near: u64,
    sink: &mut K,
    steps: &mut Steps<L>,
) -> (Passed, bool)
    requires known { t < length p.old.names }
    requires quiet { p.old.direct ≡ [] }
    requires may { MayLeapOn near t p.old }
    requires alone { PassesNoUnit near t p.old }
    ensures long { result.0.ticks ≡ leap_of near t p.old }
    ensures state { p.new ≡ after (leap_runs (flat_bodies p.old.code) result.0.ticks (Some t)) p.old }
    ensures told { Printed (outlet K.text K.faults false sink.old) (outlet K.text K.faults result.1 sink.new) (lines p.old.names (told (leap_runs (flat_bodies p.old.code) result.0.ticks (Some t)) p.old)) }
    ensures stood { StoodRight p.new.machine }
    ensures quiet { p.new.direct ≡ [] }
    ensures quiet_tick { result.0.is_quiet ≡ true → near ≤ 1 → IsQuietTick (flat_bodies p.old.code) p.old.machine.quantum (thread_at p.old.machine t) }
    ensures each_quiet_tick { near ≤ 1 → is_blocked (thread_at p.old.machine t).status ≡ false
        → IsQuietTick (flat_bodies p.old.code) p.old.machine.quantum (thread_at p.old.machine t) → result.0.is_quiet ≡ true }
    ensures still { result.0.is_still ≡ true → OnlyTakeTime (flat_bodies p.old.code) result.0.ticks t p.old.machine }
    ensures step { steps.new ≡ steps.old + 1 }
{
    let mut out = Tracer::new(sink);
    let passed = leap_in_unit(p, t, near, &mut out, steps);
    (passed, out.failed())
}

/// Where a run stands that is told.
#[derive(Clone, Copy)]
pub(crate) struct Reached {
    /// The ticks that are done.
    pub(crate) done: u64,
    /// The ticks that are left to the horizon.
    pub(crate) left: u64,
    /// Whether the last tick neither completed a unit nor used up an interval or a capacity.
    pub(crate) is_quiet: bool,
}

impl Reached {
    // So many ticks later.
    fn after(self, ticks: u64, is_quiet: bool) -> Reached
        requires within { ticks ≤ self.left }
        requires small { self.done + self.left ≤ 10 ^ 18 }
        ensures { result ≡ record { done = self.done + ticks; left = self.left - ticks; is_quiet = is_quiet } }
    {
        Reached {
            done: self.done + ticks,
            left: self.left - ticks,
            is_quiet,
        }
    }
}

// Whether the ticks of a thread were one quiet tick.
fn is_quiet_tick(passed: Passed, calm: bool) -> bool
    ensures { result ≡ (passed.is_quiet && not calm) }
{
    passed.is_quiet && !calm
}

/// One leap of a run, with the facts of its instant that changed: the lines of the items and of the dispatch come first, then the facts,
/// then the lines of what ends the leap. It is one tick, unless the instant is no eventful one: then no fact changes before the next
/// eventful one, and the leap goes there. Where an item ends the process no fact is told. The answer is `None` where a write fails.
pub(crate) fn tell_leap<K: Sink, L: Ledger>(
    p: &mut Parts,
    script: &Script,
    reached: Reached,
    texts: &mut FactTexts,
    sink: &mut K,
    steps: &mut Steps<L>,
) -> Option<Reached>
    requires runnable { IsRunnable script.now }
    requires well_formed { IsWellFormed script.now }
    requires few { HasFewObjects script.now }
    requires in_run { p.old ≡ ticked_by reached.done (opened script.now) }
    requires after_quiet { reached.is_quiet ≡ true → IsAfterQuietTick script.now reached.done }
    requires some { 1 ≤ reached.left }
    requires limit { reached.done + reached.left ≤ 10 ^ 18 }
    requires before { AreBefore script.now reached.done texts.old }
    requires alive { p.old.machine.killed ≡ None }
    requires stood { StoodRight p.old.machine }
    requires fits { StaysFit p.old (objects_in p.old) }
    ensures stopped { result ≡ None → Stops K.text K.faults script.now reached sink.old sink.new }
    ensures on { IfSome result (λ r. HasGoneOn K.text K.faults script.now reached r p.new texts.new sink.old sink.new) }
    ensures step { steps.new ≤ steps.old + 1 }
    ensures steps { IfSome result (λ r. p.new.machine.killed ≡ None → steps.new + steps_left script.now r ≤ steps.old + steps_left script.now reached) }
{
    let idle = is_idle(p);
    let calm = is_calm(reached.is_quiet, idle);
    if write_items(p, sink) {
        return None;
    }
    if p.is_killed() {
        return Some(reached.after(1, false));
    }
    texts.look(p, script, idle);
    let (to, failed) = write_dispatch(p, sink);
    if failed {
        return None;
    }
    if texts.write_changed(sink) {
        return None;
    }
    let most = most_at_once(reached.left, calm);
    let near = p.ticks_to_next(most);
    let Some(t) = to else {
        let ticks = near.max(1);
        p.leap(ticks, steps);
        return Some(reached.after(ticks, !calm));
    };
    let at_once = ticks_in_unit(p, t, near);
    let (passed, failed) = write_ticks(p, t, at_once, sink, steps);
    if failed {
        return None;
    }
    texts.follow(passed.is_still);
    Some(reached.after(passed.ticks, is_quiet_tick(passed, calm)))
}

/// Runs in leaps to the horizon, until a signal ends the process, or until a write fails, and writes what happens with the facts that
/// change. The answer is whether a write failed.
pub(crate) fn tell_run<K: Sink, L: Ledger>(
    p: &mut Parts,
    script: &Script,
    horizon: Tick,
    texts: &mut FactTexts,
    sink: &mut K,
    steps: &mut Steps<L>,
) -> bool
    requires runnable { IsRunnable script.now }
    requires well_formed { IsWellFormed script.now }
    requires few { HasFewObjects script.now }
    requires opened { p.old ≡ opened script.now }
    requires limit { horizon ≤ 10 ^ 18 }
    requires stood { StoodRight p.old.machine }
    requires fits { StaysFit p.old (objects_in p.old) }
    requires rooms { HaveRoomsFor script.now texts.old }
    ensures state { result ≡ false → p.new ≡ ticked_by horizon (opened script.now) }
    ensures told { Writes K.text K.faults sink.old sink.new result (told_by script.now horizon) }
    ensures steps { steps.new ≤ steps.old + steps_left script.now (record { done = 0; left = horizon; is_quiet = false }) }
{
    texts.begin(p, script);
    let mut reached = Reached {
        done: 0,
        left: horizon.get(),
        is_quiet: false,
    };
    'leaps: while reached.left > 0 {
        let Some(next) = tell_leap(p, script, reached, texts, sink, steps) else {
            return true;
        };
        reached = next;
        if p.is_killed() {
            return false;
        }
    }
    false
}

// Writes the closing lines, and answers whether a write failed.
fn write_closing<K: Sink>(p: &Parts, sink: &mut K) -> bool
    ensures { Printed (outlet K.text K.faults false sink.old) (outlet K.text K.faults result sink.new) (closing p.now.names p.now.machine) }
{
    let mut out = Tracer::new(sink);
    report(p, &mut out);
    out.failed()
}

/// Writes what `detail` tells of a run to the horizon, and answers whether a write failed.
pub(crate) fn write_detail<K: Sink, L: Ledger>(
    p: &mut Parts,
    script: &Script,
    horizon: Tick,
    texts: &mut FactTexts,
    sink: &mut K,
    steps: &mut Steps<L>,
) -> bool
    requires runnable { IsRunnable script.now }
    requires well_formed { IsWellFormed script.now }
    requires few { HasFewObjects script.now }
    requires opened { p.old ≡ opened script.now }
    requires limit { horizon ≤ 10 ^ 18 }
    requires stood { StoodRight p.old.machine }
    requires fits { StaysFit p.old (objects_in p.old) }
    requires rooms { HaveRoomsFor script.now texts.old }
    ensures told { Writes K.text K.faults sink.old sink.new result (detail script.now horizon) }
    ensures steps { steps.new ≤ steps.old + steps_left script.now (record { done = 0; left = horizon; is_quiet = false }) }
{
    if tell_run(p, script, horizon, texts, sink, steps) {
        return true;
    }
    write_closing(p, sink)
}
