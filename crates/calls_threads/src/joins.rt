//! Joining.
ghost use Rattle.std.specs.Prelude.{◌≡◌, ◌<◌, None, length, true};
ghost use Rattle.words_numbers.specs.declared.res.Res.TheVariants as res;
ghost use Rattle.rules_machine.specs.Lives.{is_nobody, joins, with_joiner};
ghost use Rattle.rules_machine.specs.State.{for_end, has_joined, waits_to_join};
ghost use Rattle.rules_machine.specs.Threads.{thread_at};
ghost use Rattle.rules_machine.specs.Turns.{changes, returns, ◌▷◌};
ghost use Rattle.rules_machine.specs.Waking.{blocks_unordered};
ghost use Rattle.kernel_threads.specs.Plain.{joiner_of};
ghost use Rattle.kernel_state.specs.Kernel.{after, told};
ghost use Rattle.kernel_state.specs.Does.{Does};
ghost use Rattle.kernel_state.specs.Caller.{caller};
ghost use Rattle.kernel_state.specs.Callers.{IsRunning};

use kernel_state::{Caller, Parts};
use kernel_threads::{Joiner, Wait};
use parts_io::Sink;
use parts_tracer::Tracer;
use words_numbers::{Res, Tid};

fn is_nobody(joiner: Joiner) -> bool
    ensures { result ≡ is_nobody (joiner_of joiner) }
{
    match joiner {
        Joiner::Nobody => true,
        _ => false,
    }
}

// The caller waits for the end of a thread.
#[tactic(auto, using(crate::proofs::Joined::joined_runs))]
fn wait_for_end(p: &mut Parts, by: &Caller<'_>, u: Tid)
    requires caller { IsRunning p.old by.now.thread }
    requires thread { u < length p.old.names }
    ensures { p.new ≡ after (λ s. s ▷ changes u (with_joiner (waits_to_join by.now.thread)) ▷ blocks_unordered (caller by.now) (for_end u) None) p.old }
{
    p.set_joiner(u, Joiner::WaitsToJoin(by.thread));
    p.block_unordered(by, Wait::End(u), None);
}

// A thread that has ended is joined, and the caller is told its value.
fn take_value<K: Sink>(p: &mut Parts, by: &Caller<'_>, u: Tid, out: &mut Tracer<'_, K>)
    requires known { by.now.thread < length p.old.names }
    requires thread { u < length p.old.names }
    ensures { Does K.text K.faults (λ s. s ▷ changes u (with_joiner has_joined) ▷ returns (caller by.now) res.Zero (thread_at p.old.machine u).exit_value) p.old p.new out.old out.new }
{
    let value = p.thread(u).exit_value();
    p.set_joiner(u, Joiner::HasJoined);
    p.returns(by, Res::Zero, value, out);
}

/// `pthread_join`.
pub(crate) fn join<K: Sink>(p: &mut Parts, by: &Caller<'_>, u: Tid, out: &mut Tracer<'_, K>)
    requires caller { IsRunning p.old by.now.thread }
    requires thread { u < length p.old.names }
    ensures { Does K.text K.faults (joins (caller by.now) u) p.old p.new out.old out.new }
{
    if u.get() == by.thread.get() {
        p.returns(by, Res::Deadlk, 0, out);
    } else if p.thread(u).is_dormant() {
        p.returns(by, Res::Srch, 0, out);
    } else if !is_nobody(p.thread(u).joiner()) {
        p.returns(by, Res::Inval, 0, out);
    } else if p.thread(u).is_live() {
        wait_for_end(p, by, u);
    } else {
        take_value(p, by, u, out);
    }
}
