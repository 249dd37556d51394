//! The sweep: the delivery of pending signals.
ghost use Rattle.std.specs.Prelude.{◌≡◌, ◌≤◌, ◌<◌, ◌^◌, [], length};
ghost use Rattle.rules_machine.specs.Delivery.{sweeps, sweeps_all, sweeps_thread};
ghost use Rattle.rules_machine.specs.Threads.{thread_at, thread_numbers};
ghost use Rattle.rules_flat_code.specs.FlatBodies.{flat_bodies};
ghost use Rattle.kernel_state.specs.Caught.{AreCaught, CanSweep, CanVisit};
ghost use Rattle.kernel_state.specs.Does.{Does};
ghost use Rattle.kernel_settling.specs.Stood.{StoodRight};

use crate::delivery::take_record;
use kernel_settling::settle;
use kernel_state::Parts;
use parts_io::Sink;
use parts_tracer::Tracer;
use words_numbers::Tid;

// One thread is visited, unless the process has ended.
#[tactic(auto, using(crate::proofs::Swept::as_ended, crate::proofs::Swept::as_none, crate::proofs::Swept::as_some, crate::proofs::Swept::told_ended, crate::proofs::Swept::told_none, crate::proofs::Swept::told_some, crate::proofs::Swept::taken_may))]
fn visit<K: Sink>(p: &mut Parts, t: Tid, out: &mut Tracer<'_, K>)
    requires known { t < length p.old.names }
    requires caught { AreCaught p.old }
    requires room { length p.old.direct < 256 }
    requires thread { CanVisit (thread_at p.old.machine t) }
    requires early { p.old.machine.now ≤ 10 ^ 18 }
    ensures { Does K.text K.faults (λ s. sweeps_thread (flat_bodies p.old.code) s.machine.killed t s) p.old p.new out.old out.new }
{
    if p.is_killed() {
        return;
    }
    match p.next_signal(t) {
        None => return,
        Some(r) => take_record(p, t, &r, out),
    }
}

// The threads are visited by number.
fn visit_all<K: Sink>(p: &mut Parts, out: &mut Tracer<'_, K>)
    requires quiet { p.old.direct ≡ [] }
    requires can { CanSweep p.old }
    requires early { p.old.machine.now ≤ 10 ^ 18 }
    ensures { Does K.text K.faults (sweeps_all (flat_bodies p.old.code) (thread_numbers p.old.machine)) p.old p.new out.old out.new }
{
    for number in 0..p.count() {
        let t = p.tid(number);
        visit(p, t, out);
    }
}

// A sweep with its moves. It stands apart, so that the way past it is short.
#[inline(never)]
fn sweep_in_full<K: Sink>(p: &mut Parts, out: &mut Tracer<'_, K>)
    requires quiet { p.old.direct ≡ [] }
    requires stood { StoodRight p.old.machine }
    requires can { CanSweep p.old }
    requires early { p.old.machine.now ≤ 10 ^ 18 }
    ensures does { Does K.text K.faults (sweeps (flat_bodies p.old.code)) p.old p.new out.old out.new }
    ensures stood { StoodRight p.new.machine }
    ensures quiet { p.new.direct ≡ [] }
{
    visit_all(p, out);
    settle(p);
}

// The sweep where something is pending. Mostly each thread blocks it, and then nothing changes.
#[inline(always)]
fn sweep_pending<K: Sink>(p: &mut Parts, out: &mut Tracer<'_, K>)
    requires quiet { p.old.direct ≡ [] }
    requires stood { StoodRight p.old.machine }
    requires can { CanSweep p.old }
    requires early { p.old.machine.now ≤ 10 ^ 18 }
    ensures does { Does K.text K.faults (sweeps (flat_bodies p.old.code)) p.old p.new out.old out.new }
    ensures stood { StoodRight p.new.machine }
    ensures quiet { p.new.direct ≡ [] }
{
    if p.no_thread_takes() {
        return;
    }
    sweep_in_full(p, out);
}

/// The sweep. Where nothing is pending it is one comparison.
#[inline(always)]
pub fn sweep<K: Sink>(p: &mut Parts, out: &mut Tracer<'_, K>)
    requires quiet { p.old.direct ≡ [] }
    requires stood { StoodRight p.old.machine }
    requires can { CanSweep p.old }
    requires early { p.old.machine.now ≤ 10 ^ 18 }
    ensures does { Does K.text K.faults (sweeps (flat_bodies p.old.code)) p.old p.new out.old out.new }
    ensures stood { StoodRight p.new.machine }
    ensures quiet { p.new.direct ≡ [] }
{
    if p.none_pending() {
        return;
    }
    sweep_pending(p, out);
}
