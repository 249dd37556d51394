//! Yielding, and scheduling parameters that change.
ghost use Rattle.std.specs.Prelude.{◌≤◌, ◌<◌, ◌^◌, length};
ghost use Rattle.rules_machine.specs.Threads.{thread_at};
ghost use Rattle.rules_machine.specs.Turns.{returns, ◌▷◌};
ghost use Rattle.rules_machine.specs.Threads.{can_run};
ghost use Rattle.rules_machine.specs.Servers.{activates_if};
ghost use Rattle.rules_machine.specs.Mutexes.{moves_unless_boosted};
ghost use Rattle.rules_machine.specs.Scheduling.{sets_policy, sets_priority, takes_priority, yields};
ghost use Rattle.kernel_threads.specs.Unused.{IsUnused};
ghost use Rattle.kernel_state.specs.Kernel.{changes_policy};
ghost use Rattle.kernel_state.specs.Does.{Does};
ghost use Rattle.kernel_state.specs.Caller.{caller};
ghost use Rattle.kernel_wakes.specs.Calls.{CanStart};

use kernel_state::{Caller, Parts};
use kernel_wakes::activate;
use parts_io::Sink;
use parts_tracer::Tracer;
use words_numbers::{Prio, Res, Tid};
use words_script::Policy;

/// `sched_yield`.
pub(crate) fn sched_yield<K: Sink>(p: &mut Parts, by: &Caller<'_>, out: &mut Tracer<'_, K>)
    requires known { by.now.thread < length p.old.names }
    requires room { length p.old.direct < 256 }
    ensures { Does K.text K.faults (yields (caller by.now)) p.old p.new out.old out.new }
{
    p.move_later(by.thread);
    p.returns(by, Res::Zero, 0, out);
}

/// `pthread_setschedprio`.
pub(crate) fn setschedprio<K: Sink>(
    p: &mut Parts,
    by: &Caller<'_>,
    u: Tid,
    prio: Prio,
    out: &mut Tracer<'_, K>,
)
    requires known { by.now.thread < length p.old.names }
    requires thread { u < length p.old.names }
    ensures { Does K.text K.faults (sets_priority (caller by.now) u prio) p.old p.new out.old out.new }
{
    if !p.thread(u).is_live() {
        p.returns(by, Res::Srch, 0, out);
        return;
    }
    if !p.thread(u).takes_priority(prio) {
        p.returns(by, Res::Inval, 0, out);
        return;
    }
    p.set_thread_priority(u, prio);
    p.returns(by, Res::Zero, 0, out);
}

// The thread has its new policy, and a server that is new where it is sporadic or strict.
fn change_policy<K: Sink>(
    p: &mut Parts,
    by: &Caller<'_>,
    u: Tid,
    policy: Policy,
    out: &mut Tracer<'_, K>,
)
    requires known { by.now.thread < length p.old.names }
    requires thread { u < length p.old.names }
    requires early { p.old.machine.now ≤ 10 ^ 18 }
    ensures does { Does K.text K.faults (changes_policy (caller by.now) u policy p.old.machine.now) p.old p.new out.old out.new }
    ensures unused { IsUnused (thread_at p.new.machine u).server }
{
    p.returns(by, Res::Zero, 0, out);
    p.set_thread_policy(u, policy);
}

// A runnable thread is activated, where it has a server.
fn activate_if<K: Sink>(p: &mut Parts, runs: bool, u: Tid, out: &mut Tracer<'_, K>)
    requires known { u < length p.old.names }
    requires unused { IsUnused (thread_at p.old.machine u).server }
    requires early { p.old.machine.now ≤ 10 ^ 18 }
    ensures { Does K.text K.faults (activates_if runs u) p.old p.new out.old out.new }
{
    if runs {
        activate(p, u, out);
    }
}

// A live thread has its new policy, and becomes the tail of its list.
fn set_policy<K: Sink>(
    p: &mut Parts,
    by: &Caller<'_>,
    u: Tid,
    policy: Policy,
    out: &mut Tracer<'_, K>,
)
    requires { CanStart p.old by.now.thread u }
    ensures { Does K.text K.faults (λ s. s ▷ changes_policy (caller by.now) u policy s.machine.now ▷ activates_if (can_run s.machine u) u ▷ moves_unless_boosted u) p.old p.new out.old out.new }
{
    let runs = p.thread(u).is_runnable();
    change_policy(p, by, u, policy, out);
    activate_if(p, runs, u, out);
    p.move_unless_boosted(u);
}

/// `pthread_setschedparam`.
pub(crate) fn setschedparam<K: Sink>(
    p: &mut Parts,
    by: &Caller<'_>,
    u: Tid,
    policy: &Policy,
    out: &mut Tracer<'_, K>,
)
    requires { CanStart p.old by.now.thread u }
    ensures { Does K.text K.faults (sets_policy (caller by.now) u policy.now) p.old p.new out.old out.new }
{
    if !p.thread(u).is_live() {
        p.returns(by, Res::Srch, 0, out);
        return;
    }
    set_policy(p, by, u, *policy, out);
}
