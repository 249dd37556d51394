//! The kernel of a script.
ghost use Rattle.std.specs.Prelude.{ℕ, ◌≡◌, ◌≤◌, ◌<◌, ◌+◌, ◌-◌, ◌*◌, ◌^◌, [], None, Some, length, false, true, option_map, IfOk};
ghost use Rattle.parts_tracer.specs.Prints.{Prints};
ghost use Rattle.parts_tracer.specs.Tells.{Tells};
ghost use Rattle.rules_server.specs.Server.{totals};
ghost use Rattle.words_script.specs.declared.decl.Script as tree;
ghost use Rattle.rules_machine.specs.Budget.{KeepsBudgets};
ghost use Rattle.rules_leaps.specs.Leap.{in_leaps};
ghost use Rattle.rules_machine.specs.Eventful.{busy};
ghost use Rattle.rules_machine.specs.Machine.{closing, names_of, run};
ghost use Rattle.rules_machine.specs.Promises.{busy_between};
ghost use Rattle.rules_machine.specs.Runs.{ticks};
ghost use Rattle.rules_machine.specs.Threads.{thread_at};
ghost use Rattle.rules_flat_code.specs.FlatBodies.{flat_bodies};
ghost use Rattle.rules_machine.specs.WellFormed.{IsWellFormed};
ghost use Rattle.rules_flat_code.specs.Runnable.{IsRunnable};
ghost use Rattle.kernel_state.specs.Kernel.{opened, ran};
ghost use Rattle.kernel_settling.specs.Stood.{StoodRight};
ghost use Rattle.kernel_wakes.specs.Calls.{objects_in};
ghost use Rattle.kernel_leaps.specs.Fits.{StaysFit};
ghost use Rattle.kernel_leaps.specs.Good.{IsGood};
ghost use Rattle.kernel_leaps.specs.Ran.{ticked_by};
ghost use Rattle.kernel_leaps.specs.Shown.{HasFewObjects, IsInRun};
ghost use Rattle.rules_facts.specs.Detail.{detail};
ghost use Rattle.rules_facts.specs.Shown.{shown};
ghost use Rattle.kernel_leaps.specs.Detail.{HaveRoomsFor};
ghost use Rattle.parts_io.specs.Bytes.{WritesAll};
ghost use Rattle.parts_io.specs.Causes.{HasCause};
ghost use Rattle.laws_flat_code.specs.Places.{carry};
ghost use Rattle.laws_places.specs.Carried.{ran_carried};

use crate::detail::write_detail;
use crate::fact_texts::FactTexts;
use crate::instant::handle_items;
use crate::run::{RunEnd, run_leaps};
use kernel_dispatch::report;
use kernel_opening::open;
use kernel_settling::know_priorities;
use kernel_shown::write_state;
use kernel_state::Parts;
use parts_io::{Failed, Sink};
use parts_server::BudgetLine;
use parts_steps::Steps;
use parts_tracer::Tracer;
use std::alloc::{AllocError, Global};
use std::marker::Model;
use std::sync::ledger::Ledger;
use words_numbers::{Tick, Tid};
use words_script::Script;

/// A kernel that runs a script. It stands for a state of the machine over the script's flat code, which contracts see.
#[derive(Drop)]
pub struct Kernel {
    parts: Box<Parts>,
}

impl Model for Kernel {
    ghost use Rattle.kernel_state.specs.Kernel as state;

    ghost Value = { state.Kernel };

    ghost use Rattle.kernel_leaps.specs.Ready.{IsReady};

    ghost view = { λ k. k.parts.value };

    ghost invariant = { λ k. IsReady k.parts.value };
}

impl Kernel {
    /// The kernel of a script, before the first tick. It takes all memory that the run needs.
    pub fn open(alloc: Global, script: &Script) -> Result<Kernel, AllocError>
        requires runnable { IsRunnable script.now }
        requires well_formed { IsWellFormed script.now }
        ensures { IfOk result (λ k. k ≡ opened script.now) }
    {
        let parts = open_parts(alloc, script)?;
        Ok(Kernel { parts })
    }

    /// The instant, in ticks from the start.
    pub fn now(&self) -> Tick
        ensures { result ≡ self.now.machine.now }
    {
        self.parts.instant()
    }

    /// The thread of the last tick. `None` exactly where that tick was idle, or there was none.
    pub fn running(&self) -> Option<Tid>
        ensures { result ≡ ran self.now.machine.last }
    {
        self.parts.last_dispatch()
    }

    /// The totals of a thread's server since it was new, in ticks. `None` exactly where the thread is not a live sporadic
    /// or strict one.
    pub fn totals(&self, t: Tid) -> Option<BudgetLine>
        requires { t < length self.now.names }
        ensures { result ≡ option_map totals (thread_at self.now.machine t).server }
    {
        self.parts.thread(t).totals()
    }

    /// Runs to the horizon, at most 10^18, until a signal ends the process, or until a write fails. It takes no memory, and is one step a
    /// leap: from where something falls due, or a unit, an interval or a capacity ends, to where that happens next, also where the same
    /// thread goes on. Unless a write failed, the state is that of the machine run tick by tick to the horizon, where an ended process stays
    /// as it is; what it printed is what happens until then, or a part of it where a write failed. The answer is `Killed` also where the
    /// process had ended before.
    /// A kernel that stopped may be asked for `now` alone.
    pub fn run_until<K: Sink, L: Ledger>(
        &mut self,
        horizon: Tick,
        out: &mut Tracer<'_, K>,
        steps: &mut Steps<L>,
    ) -> RunEnd
        requires ahead { self.old.machine.now ≤ horizon }
        requires limit { horizon ≤ 10 ^ 18 }
        requires unfailed { out.old.failed ≡ false }
        ensures state { out.new.failed ≡ false → self.new ≡ ticked_by (horizon - self.old.machine.now) self.old }
        ensures told { Tells K.text K.faults self.old.names out.old out.new
            (ticks (flat_bodies self.old.code) (horizon - self.old.machine.now) self.old.machine).events }
        ensures ended { result ≡ RunEnd.Ended → (out.new.failed ≡ false) × (self.new.machine.killed ≡ None) }
        ensures killed { (signal : ℕ) → result ≡ RunEnd.Killed signal → (out.new.failed ≡ false) × (self.new.machine.killed ≡ Some signal) }
        ensures stopped { result ≡ RunEnd.Stopped → out.new.failed ≡ true }
        ensures later { self.old.machine.now ≤ self.new.machine.now }
        ensures not_beyond { self.new.machine.now ≤ horizon }
        ensures steps { steps.new ≤ steps.old + (in_leaps (flat_bodies self.old.code) (horizon - self.old.machine.now) self.old.machine).count }
        ensures busy { steps.new ≤ steps.old + busy (flat_bodies self.old.code) self.old.machine 0 (horizon - self.old.machine.now) + 1 }

        // Of a kernel that was opened for a script and has not run yet it is the script's run, tick by tick: the machine, where each place
        // of a frame is written as the place in the code that stands for it, the events, and how many instants are eventful.
        ensures machine { out.new.failed ≡ false → (script : tree.Script) → self.old ≡ opened script
            → self.new.machine ≡ (ran_carried (carry script) (run script horizon)).machine }
        ensures events { (script : tree.Script) → self.old ≡ opened script
            → Tells K.text K.faults (names_of script) out.old out.new (run script horizon).events }
        ensures eventful { (script : tree.Script) → self.old ≡ opened script → steps.new ≤ steps.old + busy_between script 0 horizon + 1 }

        // The state that it leaves is good, and each server keeps its budget in the runs of well formed scripts.
        ensures good { out.new.failed ≡ false → IsGood (flat_bodies self.new.code) self.new.machine }
        ensures budgets { (script : tree.Script) → IsWellFormed script → self.old ≡ opened script
            → (n k : ℕ) → KeepsBudgets (flat_bodies self.old.code) self.old.machine n k }
    {
        run_leaps(&mut self.parts, horizon, out, steps)
    }

    /// Prints the closing lines.
    pub fn report<K: Sink>(&self, out: &mut Tracer<'_, K>)
        ensures { Prints K.text K.faults out.old out.new (closing self.now.names self.now.machine) }
    {
        report(&self.parts, out)
    }

    /// Writes what `show` tells of the instant: who stands on which list, who waits for what, and more. What is due at the instant is handled
    /// first, and told nowhere, so the kernel is done with. It takes no memory.
    ///
    /// `Err` comes only where the sink's count of faults rose in this call, and then a part from the front of the text was appended.
    pub fn show<K: Sink>(self, script: &Script, sink: &mut K) -> Result<(), Failed>
        requires runnable { IsRunnable script.now }
        requires well_formed { IsWellFormed script.now }
        requires few { HasFewObjects script.now }
        requires in_run { IsInRun script.now self }
        requires early { self.machine.now ≤ 10 ^ 18 }
        ensures written { (n : ℕ) → self ≡ ticked_by n (opened script.now) → WritesAll (K.text sink.old) (K.text sink.new) result (shown script.now n) }
        ensures cause { HasCause (K.faults sink.old) (K.faults sink.new) result }
    {
        let mut parts = self.parts;
        handle_items(&mut parts);
        write_state(&parts, script, sink)
    }

    /// Writes what `detail` tells of a run to the horizon, at most 10^18: what happens, behind it the facts that change at each instant, and
    /// then the closing lines. It is two steps a leap at most, and takes no memory: `texts` has rooms for all facts of the script's run.
    ///
    /// `Err` comes only where the sink's count of faults rose in this call, and then a part from the front of the text was appended.
    pub fn detail<K: Sink, L: Ledger>(
        self,
        script: &Script,
        horizon: Tick,
        texts: &mut FactTexts,
        sink: &mut K,
        steps: &mut Steps<L>,
    ) -> Result<(), Failed>
        requires runnable { IsRunnable script.now }
        requires well_formed { IsWellFormed script.now }
        requires few { HasFewObjects script.now }
        requires opened { self ≡ opened script.now }
        requires limit { horizon ≤ 10 ^ 18 }
        requires rooms { HaveRoomsFor script.now texts.old }
        ensures written { WritesAll (K.text sink.old) (K.text sink.new) result (detail script.now horizon) }
        ensures cause { HasCause (K.faults sink.old) (K.faults sink.new) result }
        ensures steps { steps.new ≤ steps.old + 2 * busy_between script.now 0 horizon + 2 }
    {
        let mut parts = self.parts;
        if write_detail(&mut parts, script, horizon, texts, sink, steps) {
            return Err(Failed);
        }
        Ok(())
    }
}

// The parts of a script's kernel, all of whose threads stand right.
#[tactic(auto, using(crate::proofs::Opened::script_fits))]
fn open_parts(alloc: Global, script: &Script) -> Result<Box<Parts>, AllocError>
    requires runnable { IsRunnable script.now }
    requires well_formed { IsWellFormed script.now }
    ensures kernel { IfOk result (λ k. k.value ≡ opened script.now) }
    ensures stood { IfOk result (λ k. StoodRight k.value.machine) }
    ensures fits { IfOk result (λ k. StaysFit k.value (objects_in k.value)) }
{
    let parts = open(alloc, script)?;
    know_priorities(&parts);
    Ok(parts)
}
