//! Runs of scripts.
ghost use Rattle.std.specs.Prelude.{◌≡◌, ◌≤◌, ◌+◌, ◌^◌, false, IfOk, OnOk, OnErr};
ghost use Rattle.parts_tracer.specs.Prints.{Prints};
ghost use Rattle.parts_tracer.specs.Printed.{Printed, outlet};
ghost use Rattle.rules_flat_code.specs.FlatBodies.{flat_bodies};
ghost use Rattle.rules_flat_code.specs.Runnable.{IsRunnable};
ghost use Rattle.rules_machine.specs.Eventful.{busy};
ghost use Rattle.rules_machine.specs.Machine.{trace};
ghost use Rattle.rules_machine.specs.Promises.{busy_between};
ghost use Rattle.rules_machine.specs.WellFormed.{IsWellFormed};
ghost use Rattle.kernel_leaps.specs.Ran.{kernel_trace, ticked_by};
ghost use Rattle.tool_answers.specs.Answer.{closing_lines};

use kernel_leaps::Kernel;
use parts_io::{NullSink, Sink};
use parts_steps::Steps;
use parts_tracer::Tracer;
use std::alloc::{AllocError, Global};
use std::sync::ledger::Ledger;
use words_numbers::Tick;
use words_script::Script;

// Runs a kernel from its first instant to the horizon, and prints the trace. A process that a signal ended has come to an ordinary end.
fn run_and_report<K: Sink, L: Ledger>(
    kernel: &mut Kernel,
    horizon: Tick,
    out: &mut Tracer<'_, K>,
    steps: &mut Steps<L>,
)
    requires fresh { kernel.old.machine.now ≡ 0 }
    requires limit { horizon ≤ 10 ^ 18 }
    requires unfailed { out.old.failed ≡ false }
    ensures printed { Prints K.text K.faults out.old out.new (kernel_trace kernel.old horizon) }
    ensures busy { steps.new ≤ steps.old + busy (flat_bodies kernel.old.code) kernel.old.machine 0 horizon + 1 }
{
    // the tracer tells whether a write failed
    let _ = kernel.run_until(horizon, out, steps);
    if out.failed() {
        return;
    }
    kernel.report(out)
}

// Runs a script from its first instant to the horizon, and prints its trace. From the open kernel on, nothing takes memory.
fn open_and_run<K: Sink, L: Ledger>(
    alloc: Global,
    script: &Script,
    horizon: Tick,
    out: &mut Tracer<'_, K>,
    steps: &mut Steps<L>,
) -> Result<(), AllocError>
    requires runnable { IsRunnable script.now }
    requires well_formed { IsWellFormed script.now }
    requires limit { horizon ≤ 10 ^ 18 }
    requires unfailed { out.old.failed ≡ false }
    ensures printed { OnOk result (Prints K.text K.faults out.old out.new (trace script.now horizon)) }
    ensures unchanged { OnErr result (out.new ≡ out.old) }
    ensures busy { steps.new ≤ steps.old + busy_between script.now 0 horizon + 1 }
{
    let mut kernel = Kernel::open(alloc, script)?;
    run_and_report(&mut kernel, horizon, out, steps);
    Ok(())
}

/// Runs a script from its first instant to the horizon, prints its trace, and answers whether a write failed. From the open kernel on,
/// nothing takes memory.
pub(crate) fn print_run<K: Sink, L: Ledger>(
    alloc: Global,
    script: &Script,
    horizon: Tick,
    sink: &mut K,
    steps: &mut Steps<L>,
) -> Result<bool, AllocError>
    requires runnable { IsRunnable script.now }
    requires well_formed { IsWellFormed script.now }
    requires limit { horizon ≤ 10 ^ 18 }
    ensures printed { IfOk result (λ failed. Printed (outlet K.text K.faults false sink.old) (outlet K.text K.faults failed sink.new)
        (trace script.now horizon)) }
    ensures unchanged { OnErr result (sink.new ≡ sink.old) }
    ensures busy { steps.new ≤ steps.old + busy_between script.now 0 horizon + 1 }
{
    let mut out = Tracer::new(sink);
    open_and_run(alloc, script, horizon, &mut out, steps)?;
    Ok(out.failed())
}

/// Runs a kernel from its first instant to the horizon, and keeps nothing of what happens.
pub(crate) fn soak_kernel<L: Ledger>(kernel: &mut Kernel, horizon: Tick, steps: &mut Steps<L>)
    requires fresh { kernel.old.machine.now ≡ 0 }
    requires limit { horizon ≤ 10 ^ 18 }
    ensures state { kernel.new ≡ ticked_by horizon kernel.old }
    ensures not_beyond { kernel.new.machine.now ≤ horizon }
    ensures busy { steps.new ≤ steps.old + busy (flat_bodies kernel.old.code) kernel.old.machine 0 horizon + 1 }
{
    let mut nothing = NullSink::new();
    let mut out = Tracer::new(&mut nothing);
    // what is thrown away cannot fail
    let _ = kernel.run_until(horizon, &mut out, steps);
}

// Runs a script from its first instant to the horizon, and prints its closing lines. From the open kernel on, nothing takes memory.
fn print_closing<K: Sink, L: Ledger>(
    alloc: Global,
    script: &Script,
    horizon: Tick,
    out: &mut Tracer<'_, K>,
    steps: &mut Steps<L>,
) -> Result<(), AllocError>
    requires runnable { IsRunnable script.now }
    requires well_formed { IsWellFormed script.now }
    requires limit { horizon ≤ 10 ^ 18 }
    requires unfailed { out.old.failed ≡ false }
    ensures printed { OnOk result (Prints K.text K.faults out.old out.new (closing_lines script.now horizon)) }
    ensures unchanged { OnErr result (out.new ≡ out.old) }
    ensures busy { steps.new ≤ steps.old + busy_between script.now 0 horizon + 1 }
{
    let mut kernel = Kernel::open(alloc, script)?;
    soak_kernel(&mut kernel, horizon, steps);
    kernel.report(out);
    Ok(())
}

/// Runs a script from its first instant to the horizon, prints its closing lines alone, and answers whether a write failed. From the open
/// kernel on, nothing takes memory.
pub(crate) fn print_soak<K: Sink, L: Ledger>(
    alloc: Global,
    script: &Script,
    horizon: Tick,
    sink: &mut K,
    steps: &mut Steps<L>,
) -> Result<bool, AllocError>
    requires runnable { IsRunnable script.now }
    requires well_formed { IsWellFormed script.now }
    requires limit { horizon ≤ 10 ^ 18 }
    ensures printed { IfOk result (λ failed. Printed (outlet K.text K.faults false sink.old) (outlet K.text K.faults failed sink.new)
        (closing_lines script.now horizon)) }
    ensures unchanged { OnErr result (sink.new ≡ sink.old) }
    ensures busy { steps.new ≤ steps.old + busy_between script.now 0 horizon + 1 }
{
    let mut out = Tracer::new(sink);
    print_closing(alloc, script, horizon, &mut out, steps)?;
    Ok(out.failed())
}
