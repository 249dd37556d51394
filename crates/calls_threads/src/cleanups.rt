//! Cleanup handlers.
ghost use Rattle.std.specs.Prelude.{◌≡◌, ℕ, ◌≤◌, ◌<◌, IfSome, List, length, slice_get};
ghost use Rattle.rules_machine.specs.Cancellation.{pops_cleanup, pushes_cleanup, runs_cleanup_if};
ghost use Rattle.rules_machine.specs.Threads.{thread_at};
ghost use Rattle.rules_machine.specs.Turns.{changes};
ghost use Rattle.rules_flat_code.specs.FlatBodies.{flat_bodies};
ghost use Rattle.kernel_threads.specs.Handlers.{AreHandlers};
ghost use Rattle.kernel_state.specs.Kernel.{after};
ghost use Rattle.kernel_state.specs.Does.{Does};
ghost use Rattle.kernel_state.specs.Caller.{caller};

use kernel_state::{Caller, Parts};
use parts_io::Sink;
use parts_tracer::Tracer;
use words_numbers::{ObjId, Res, Tid};

/// `pthread_cleanup_push`.
pub(crate) fn push_cleanup<K: Sink>(
    p: &mut Parts,
    by: &Caller<'_>,
    u: ObjId,
    out: &mut Tracer<'_, K>,
)
    requires known { by.now.thread < length p.old.names }
    requires room { length (thread_at p.old.machine by.now.thread).cleanups < 8 }
    ensures { Does K.text K.faults (pushes_cleanup (caller by.now) u) p.old p.new out.old out.new }
{
    p.push_cleanup(by.thread, u);
    p.returns(by, Res::Zero, 0, out);
}

// The cleanup handler that was pushed last runs in a frame of its own, if it is to.
#[tactic(auto, using(crate::proofs::Popped::none_runs, crate::proofs::Popped::one_runs))]
fn run_last(p: &mut Parts, t: Tid, last: Option<ObjId>, runs: bool)
    requires known { t < length p.old.names }
    requires handler { IfSome last (λ u. u < length p.old.code.cleanups) }
    requires room { length (thread_at p.old.machine t).frames ≤ 2 }
    ensures { (us : List ℕ) → last ≡ slice_get us 0 → p.new ≡ after (changes t (runs_cleanup_if runs (flat_bodies p.old.code) us)) p.old }
{
    if !runs {
        return;
    }
    match last {
        None => return,
        Some(u) => p.run_cleanup(t, u),
    }
}

/// `pthread_cleanup_pop`.
#[tactic(auto, using(crate::proofs::Popped::first_known, crate::proofs::Popped::frames_kept))]
pub(crate) fn pop_cleanup<K: Sink>(
    p: &mut Parts,
    by: &Caller<'_>,
    runs: bool,
    out: &mut Tracer<'_, K>,
)
    requires known { by.now.thread < length p.old.names }
    requires handlers { AreHandlers (length p.old.code.cleanups) (thread_at p.old.machine by.now.thread).cleanups }
    requires room { length (thread_at p.old.machine by.now.thread).frames ≤ 2 }
    ensures { Does K.text K.faults (pops_cleanup (flat_bodies p.old.code) (caller by.now) runs) p.old p.new out.old out.new }
{
    let last = p.thread(by.thread).last_cleanup();
    p.drop_cleanup(by.thread);
    p.returns(by, Res::Zero, 0, out);
    run_last(p, by.thread, last, runs);
}
