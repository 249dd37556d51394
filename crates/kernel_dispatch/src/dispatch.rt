//! What precedes a tick: the dispatch, by which the head of the highest list that is not empty runs (IEEE 1003.1-2017, XSH 2.8.4), and the
//! runs of strict servers, which are this project's own.
ghost use Rattle.std.specs.Prelude.{◌≡◌, ◌<◌, ◌≤◌, ◌^◌, ℕ, false, length, true, IfSome};
ghost use Rattle.parts_tracer.specs.Tells.{Tells};
ghost use Rattle.rules_machine.specs.declared.dispatch.LastDispatch.TheVariants as last;
ghost use Rattle.rules_machine.specs.Dispatch.{dispatch_event, dispatches, head, is_same};
ghost use Rattle.rules_machine.specs.Servers.{closes, has_run};
ghost use Rattle.rules_machine.specs.Threads.{thread_at};
ghost use Rattle.rules_machine.specs.Ticks.{prepares};
ghost use Rattle.rules_machine.specs.Turns.{tells, ◌▷◌};
ghost use Rattle.kernel_state.specs.Kernel.{told};
ghost use Rattle.kernel_state.specs.Does.{Does};

use crate::runs::{close_last, open_run};
use kernel_state::Parts;
use parts_io::Sink;
use parts_tracer::Tracer;
use words_numbers::Tid;
use words_trace::Event;

// The processor is given to another thread, or to none.
fn tell_dispatch<K: Sink>(p: &Parts, to: &Option<Tid>, out: &mut Tracer<'_, K>)
    requires { IfSome to.now (λ t. t < length p.now.names) }
    ensures { Tells K.text K.faults p.now.names out.old out.new (told (tells (dispatch_event p.now.machine to.now)) p.now) }
{
    match to {
        None => p.tell(&Event::Idle, out),
        Some(t) => out.put_dispatch(p.instant(), *t, p.exec(*t), p.names()),
    }
}

// The processor is given to the head, which is another than at the last tick: the open run of that one is closed, and it is told.
#[inline(always)]
fn change_head<K: Sink>(p: &mut Parts, to: &Option<Tid>, out: &mut Tracer<'_, K>)
    requires change { is_same p.old.machine.last to.now ≡ false }
    requires known { IfSome to.now (λ t. t < length p.old.names) }
    requires latest { (u : ℕ) → has_run (thread_at p.old.machine u).server ≡ true → p.old.machine.last ≡ last.Ran u }
    ensures { Does K.text K.faults (λ s. s ▷ closes to.now ▷ dispatches to.now) p.old p.new out.old out.new }
{
    close_last(p, to, out);
    tell_dispatch(p, to, out);
    p.set_last(to);
}

// The processor is given to the head, and told where that is a change; before that the open run of any other thread is closed.
#[inline(always)]
fn dispatch<K: Sink>(p: &mut Parts, to: &Option<Tid>, out: &mut Tracer<'_, K>)
    requires known { IfSome to.now (λ t. t < length p.old.names) }
    requires latest { (u : ℕ) → has_run (thread_at p.old.machine u).server ≡ true → p.old.machine.last ≡ last.Ran u }
    ensures { Does K.text K.faults (λ s. s ▷ closes to.now ▷ dispatches to.now) p.old p.new out.old out.new }
{
    if !p.is_last(to) {
        change_head(p, to, out);
    }
}

/// What precedes the tick of the head: the open run of any other thread is closed, the processor is given to the head, which is told
/// where it is a change, and a run of the head is opened where one may be. `None` exactly where all lists are empty. Only the thread of
/// the last tick may have an open run.
#[inline(always)]
pub fn prepare<K: Sink>(p: &mut Parts, out: &mut Tracer<'_, K>) -> Option<Tid>
    requires latest { (u : ℕ) → has_run (thread_at p.old.machine u).server ≡ true → p.old.machine.last ≡ last.Ran u }
    requires early { p.old.machine.now ≤ 10 ^ 18 }
    ensures top { result ≡ head p.old.machine }
    ensures known { IfSome result (λ t. t < length p.old.names) }
    ensures does { Does K.text K.faults (prepares (head p.old.machine)) p.old p.new out.old out.new }
{
    let to = p.head();
    dispatch(p, &to, out);
    open_run(p, &to, out);
    to
}
