//! The due items.
ghost use Rattle.std.specs.Prelude.{◌≡◌, ◌≤◌, ◌<◌, ◌^◌, [], length, true, false};
ghost use Rattle.rules_machine.specs.Threads.{thread_at, waiting_of};
ghost use Rattle.rules_machine.specs.Turns.{settles_since, ◌▷◌};
ghost use Rattle.rules_machine.specs.Servers.{has_high, refills};
ghost use Rattle.rules_machine.specs.DueItems.{handles, item_done, times_out};
ghost use Rattle.rules_flat_code.specs.FlatBodies.{flat_bodies};
ghost use Rattle.kernel_threads.specs.Unused.{IsUnused};
ghost use Rattle.kernel_state.specs.Due.{IsKnown};
ghost use Rattle.kernel_state.specs.Caught.{CanSweep};
ghost use Rattle.calls_items.specs.Handled.{CanHandleNext};
ghost use Rattle.kernel_state.specs.Kernel.{after, refilled_telling};
ghost use Rattle.kernel_state.specs.Does.{Does};
ghost use Rattle.kernel_settling.specs.Stood.{StoodRight};
ghost use Rattle.calls_sync.specs.Premises.{CanContend};

use crate::expiries::expire;
use crate::sweeps::sweep;
use calls_sync::contend;
use kernel_settling::settle;
use kernel_state::Parts;
use kernel_threads::{Refilled, Wait};
use kernel_wakes::{activate, start, wake};
use parts_io::Sink;
use parts_tracer::Tracer;
use rules_machine::CondEnd;
use words_numbers::{Item, Res, SigSet, Tid};
use words_trace::Event;

// It is told, and the thread is activated where it got its high priority back and can run.
fn tell_refill<K: Sink>(p: &mut Parts, t: Tid, r: &Refilled, runs: bool, out: &mut Tracer<'_, K>)
    requires known { t < length p.old.names }
    requires unused { r.now.regains_high ≡ true → IsUnused (thread_at p.old.machine t).server }
    requires early { p.old.machine.now ≤ 10 ^ 18 }
    ensures { Does K.text K.faults (refilled_telling t r.now runs) p.old p.new out.old out.new }
{
    p.tell(&Event::Refill(t, r.amount, r.capacity), out);
    if r.regains_high && runs {
        activate(p, t, out);
    }
}

// The oldest pending replenishment of a server is carried out.
#[inline(never)]
fn refill<K: Sink>(p: &mut Parts, t: Tid, out: &mut Tracer<'_, K>)
    requires known { t < length p.old.names }
    requires rests { has_high (thread_at p.old.machine t).server ≡ false → IsUnused (thread_at p.old.machine t).server }
    requires early { p.old.machine.now ≤ 10 ^ 18 }
    ensures { Does K.text K.faults (refills t) p.old p.new out.old out.new }
{
    if !p.thread(t).has_server() {
        return;
    }
    let runs = p.thread(t).is_runnable();
    let r = p.refill_thread(t);
    tell_refill(p, t, &r, runs, out);
}

// A wait ends at its time: a sleep is over, and what was waited for is given up.
#[inline(never)]
fn time_out<K: Sink>(p: &mut Parts, t: Tid, out: &mut Tracer<'_, K>)
    requires known { t < length p.old.names }
    requires can { CanContend p.old }
    ensures { Does K.text K.faults (λ s. times_out (waiting_of s.machine t) t s) p.old p.new out.old out.new }
{
    match p.thread(t).wait() {
        None => return,
        Some(Wait::Time) => wake(p, t, Res::Zero, 0, out),
        Some(Wait::Mutex(_)) => wake(p, t, Res::Timedout, 0, out),
        Some(Wait::MutexAgain(_, _)) => wake(p, t, Res::Timedout, 0, out),
        Some(Wait::End(_)) => wake(p, t, Res::Timedout, 0, out),
        Some(Wait::Semaphore(_)) => wake(p, t, Res::Timedout, 0, out),
        Some(Wait::Condition(_, _)) => contend(p, t, CondEnd::Timedout, out),
        Some(Wait::Signal(_)) => wake(p, t, Res::Again, 0, out),
        Some(Wait::Room(_, _)) => wake(p, t, Res::Timedout, 0, out),
        Some(Wait::Message(_)) => wake(p, t, Res::Timedout, 0, out),
    }
}

// A due item, before its moves.
#[inline(never)]
fn handle<K: Sink>(p: &mut Parts, i: Item, out: &mut Tracer<'_, K>)
    requires known { IsKnown (length p.old.names) (length p.old.machine.timers) i }
    requires can { CanHandleNext p.old }
    ensures { Does K.text K.faults (handles (flat_bodies p.old.code) i) p.old p.new out.old out.new }
{
    match i {
        Item::Refill(t) => refill(p, t, out),
        Item::Start(t) => start(p, t, SigSet::new(0), out),
        Item::Timeout(t) => time_out(p, t, out),
        Item::Timer(k) => expire(p, k, out),
    }
}

// A due item, with its moves.
#[inline(always)]
fn settle_item<K: Sink>(p: &mut Parts, i: Item, out: &mut Tracer<'_, K>)
    requires known { IsKnown (length p.old.names) (length p.old.machine.timers) i }
    requires can { CanHandleNext p.old }
    requires stood { StoodRight p.old.machine }
    ensures does { Does K.text K.faults (λ s. s ▷ handles (flat_bodies p.old.code) i ▷ settles_since s.machine) p.old p.new out.old out.new }
    ensures stood { StoodRight p.new.machine }
{
    handle(p, i, out);
    settle(p);
}

/// A due item, with its moves and the sweep.
#[inline(always)]
pub fn do_item<K: Sink>(p: &mut Parts, i: Item, out: &mut Tracer<'_, K>)
    requires known { IsKnown (length p.old.names) (length p.old.machine.timers) i }
    requires can { CanHandleNext p.old }
    requires stood { StoodRight p.old.machine }
    requires sweeps { CanSweep (after (λ s. s ▷ handles (flat_bodies p.old.code) i ▷ settles_since s.machine) p.old) }
    ensures does { Does K.text K.faults (item_done (flat_bodies p.old.code) i) p.old p.new out.old out.new }
    ensures stood { StoodRight p.new.machine }
    ensures quiet { p.new.direct ≡ [] }
    ensures time { p.new.machine.now ≡ p.old.machine.now }
{
    settle_item(p, i, out);
    sweep(p, out);
}
