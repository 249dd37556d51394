//! What is told of a server beside its changes: activations and plans (the rules are those of SCHED_SPORADIC, IEEE 1003.1-2017,
//! XSH 2.8.4).
ghost use Rattle.std.specs.Prelude.{◌≡◌, ◌≤◌, ◌<◌, ◌^◌, length};
ghost use Rattle.rules_machine.specs.Servers.{activates, activates_if_high, plans};
ghost use Rattle.rules_machine.specs.Threads.{thread_at};
ghost use Rattle.rules_machine.specs.Ticks.{consumed_in};
ghost use Rattle.kernel_state.specs.Kernel.{activates_now};
ghost use Rattle.kernel_state.specs.Does.{Does};
ghost use Rattle.kernel_state.specs.Callers.{CanActivate};

use kernel_state::Parts;
use parts_io::Sink;
use parts_tracer::Tracer;
use words_numbers::Tid;
use words_trace::Event;

/// The activation time of a server with that capacity is now.
pub fn activate_now<K: Sink>(p: &mut Parts, t: Tid, capacity: u64, out: &mut Tracer<'_, K>)
    requires known { t < length p.old.names }
    requires unused { consumed_in (thread_at p.old.machine t).server ≡ 0 }
    requires early { p.old.machine.now ≤ 10 ^ 18 }
    ensures { Does K.text K.faults (activates_now t capacity) p.old p.new out.old out.new }
{
    p.activate_thread(t);
    p.tell(&Event::Activate(t, capacity), out);
}

/// A thread whose assigned priority is the high one is activated.
#[tactic(auto, using(crate::proofs::Activations::high_unused))]
pub(crate) fn activate_if_high<K: Sink>(p: &mut Parts, t: Tid, out: &mut Tracer<'_, K>)
    requires { CanActivate p.old t }
    ensures { Does K.text K.faults (activates_if_high t) p.old p.new out.old out.new }
{
    match p.thread(t).high_capacity() {
        None => return,
        Some(capacity) => activate_now(p, t, capacity, out),
    }
}

/// A thread that has a server is activated, where that is made at once.
#[tactic(auto, using(crate::proofs::Activations::some_unused))]
pub fn activate<K: Sink>(p: &mut Parts, t: Tid, out: &mut Tracer<'_, K>)
    requires { CanActivate p.old t }
    ensures { Does K.text K.faults (activates t) p.old p.new out.old out.new }
{
    match p.thread(t).capacity() {
        None => return,
        Some(capacity) => activate_now(p, t, capacity, out),
    }
}

/// What was consumed becomes a pending replenishment.
#[inline(never)]
pub fn plan<K: Sink>(p: &mut Parts, t: Tid, out: &mut Tracer<'_, K>)
    requires known { t < length p.old.names }
    requires used { 1 ≤ consumed_in (thread_at p.old.machine t).server }
    ensures { Does K.text K.faults (plans t) p.old p.new out.old out.new }
{
    let r = p.plan_thread(t);
    p.tell(&Event::Plan(t, r.amount, r.due), out);
}
