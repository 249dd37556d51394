//! The runs of strict servers, which are this project's own.
ghost use Rattle.std.specs.Prelude.{◌≡◌, ◌≤◌, ◌<◌, ◌^◌, ℕ, IfSome, false, length, true};
ghost use Rattle.rules_machine.specs.declared.dispatch.LastDispatch.TheVariants as last;
ghost use Rattle.rules_machine.specs.Dispatch.{is_same};
ghost use Rattle.rules_machine.specs.Servers.{closes, has_run, opens};
ghost use Rattle.rules_machine.specs.Threads.{thread_at};
ghost use Rattle.kernel_state.specs.Does.{Does};

use kernel_state::Parts;
use kernel_wakes::{activate_now, plan};
use parts_io::Sink;
use parts_tracer::Tracer;
use words_numbers::Tid;

/// Whether that thread has an open run of its server; none has where there is no such thread.
#[tactic(auto, using(crate::proofs::LastRun::run_named))]
pub fn has_run(p: &Parts, t: Tid) -> bool
    ensures value { result ≡ has_run (thread_at p.now.machine t).server }
    ensures known { result ≡ true → t < length p.now.names }
{
    // so it is known which threads there are
    let _ = p.count();
    p.table().has_run(t)
}

/// The run of the thread of the last tick is closed, which is not the head. No other thread has an open run.
#[inline(never)]
pub(crate) fn close_last<K: Sink>(p: &mut Parts, to: &Option<Tid>, out: &mut Tracer<'_, K>)
    requires change { is_same p.old.machine.last to.now ≡ false }
    requires latest { (u : ℕ) → has_run (thread_at p.old.machine u).server ≡ true → p.old.machine.last ≡ last.Ran u }
    ensures { Does K.text K.faults (closes to.now) p.old p.new out.old out.new }
{
    let Some(u) = p.last_dispatch() else {
        return;
    };
    if has_run(p, u) {
        plan(p, u, out);
    }
}

/// A run of the head is opened, where one may be.
#[inline(always)]
#[tactic(auto, using(crate::proofs::Openings::opening_unused))]
pub(crate) fn open_run<K: Sink>(p: &mut Parts, to: &Option<Tid>, out: &mut Tracer<'_, K>)
    requires known { IfSome to.now (λ t. t < length p.old.names) }
    requires early { p.old.machine.now ≤ 10 ^ 18 }
    ensures { Does K.text K.faults (opens to.now) p.old p.new out.old out.new }
{
    let Some(t) = to else {
        return;
    };
    match p.thread(*t).opening_capacity() {
        None => return,
        Some(capacity) => activate_now(p, *t, capacity, out),
    }
}
