//! The ends of threads and of handlers.
ghost use Rattle.std.specs.Prelude.{◌≡◌, ◌≤◌, ◌<◌, ◌^◌, length};
ghost use Rattle.words_numbers.specs.declared.res.Res.TheVariants as res;
ghost use Rattle.words_trace.specs.declared.event.Event.TheVariants as event;
ghost use Rattle.rules_machine.specs.Lives.{ends, exits, finishes, wakes_joiner, with_joiner, without_life, without_target};
ghost use Rattle.rules_machine.specs.State.{has_joined};
ghost use Rattle.rules_machine.specs.Threads.{thread_at};
ghost use Rattle.rules_machine.specs.Turns.{changes, changes_pending, tells, ◌▷◌};
ghost use Rattle.rules_machine.specs.Waking.{wakes};
ghost use Rattle.kernel_threads.specs.Plain.{joiner_of};
ghost use Rattle.kernel_state.specs.Kernel.{after};
ghost use Rattle.kernel_state.specs.Does.{Does};
ghost use Rattle.kernel_state.specs.Caller.{caller};
ghost use Rattle.kernel_wakes.specs.Joins.{JoinerFits};
ghost use Rattle.kernel_state.specs.Callers.{CanRise};
ghost use Rattle.calls_threads.specs.Premises.{CanFinish};

use kernel_state::{Caller, Parts};
use kernel_threads::Joiner;
use kernel_wakes::wake;
use parts_io::Sink;
use parts_tracer::Tracer;
use rules_machine::FrameKind;
use words_numbers::{Res, Tid};
use words_trace::Event;

// The thread that waits to join one that has ended wakes with its value.
#[tactic(auto, using(crate::proofs::Joined::joined_unused))]
fn wake_waiting<K: Sink>(p: &mut Parts, t: Tid, u: Tid, out: &mut Tracer<'_, K>)
    requires known { t < length p.old.names }
    requires can { CanRise p.old u }
    ensures { Does K.text K.faults (λ s. s ▷ changes t (with_joiner has_joined) ▷ wakes u res.Zero (thread_at p.old.machine t).exit_value) p.old p.new out.old out.new }
{
    let value = p.thread(t).exit_value();
    p.set_joiner(t, Joiner::HasJoined);
    wake(p, u, Res::Zero, value, out);
}

// Who waits to join a thread that has ended wakes.
fn wake_joiner<K: Sink>(p: &mut Parts, joiner: Joiner, t: Tid, out: &mut Tracer<'_, K>)
    requires known { t < length p.old.names }
    requires threads { length p.old.machine.threads ≡ length p.old.names }
    requires joiner { JoinerFits p.old.machine (joiner_of joiner) }
    requires room { length p.old.direct < 512 }
    requires early { p.old.machine.now ≤ 10 ^ 18 }
    ensures { Does K.text K.faults (wakes_joiner (joiner_of joiner) t) p.old p.new out.old out.new }
{
    match joiner {
        Joiner::Nobody => return,
        Joiner::HasJoined => return,
        Joiner::WaitsToJoin(u) => wake_waiting(p, t, u, out),
    }
}

// The thread ends, and the signals directed to it.
fn end_life<K: Sink>(p: &mut Parts, t: Tid, out: &mut Tracer<'_, K>)
    requires known { t < length p.old.names }
    ensures { Does K.text K.faults (λ s. s ▷ changes t without_life ▷ tells (event.Exit t) ▷ changes_pending (without_target t)) p.old p.new out.old out.new }
{
    p.end_thread(t);
    p.tell(&Event::Exit(t), out);
    p.drop_pending(t);
}

// The thread ends, and its joiner wakes.
#[tactic(auto, using(crate::proofs::Ended::joiner_fits))]
fn end<K: Sink>(p: &mut Parts, t: Tid, out: &mut Tracer<'_, K>)
    requires known { t < length p.old.names }
    requires can { CanFinish p.old }
    ensures { Does K.text K.faults (ends t) p.old p.new out.old out.new }
{
    let joiner = p.thread(t).joiner();
    end_life(p, t, out);
    wake_joiner(p, joiner, t, out);
}

/// A body ends: a handler returns to what it interrupted, and the end of the main body is that of the thread.
pub fn finish<K: Sink>(p: &mut Parts, t: Tid, out: &mut Tracer<'_, K>)
    requires known { t < length p.old.names }
    requires can { CanFinish p.old }
    ensures { Does K.text K.faults (finishes t) p.old p.new out.old out.new }
{
    match p.thread(t).kind() {
        FrameKind::Main => end(p, t, out),
        FrameKind::Cleanup => p.drop_frame(t),
        FrameKind::Signal => p.drop_frame(t),
    }
}

/// `pthread_exit`: the thread is ending, and its cleanup handlers come first.
pub(crate) fn exit(p: &mut Parts, by: &Caller<'_>, value: u64)
    requires { by.now.thread < length p.old.names }
    ensures { p.new ≡ after (exits (caller by.now) value) p.old }
{
    p.begin_end(by.thread, value);
}
