//! Sending signals: `kill`, `pthread_kill` and `sigqueue`.
ghost use Rattle.std.specs.Prelude.{◌≡◌, ◌<◌, ◌^◌, IfSome, None, Some, false, length, true};
ghost use Rattle.words_numbers.specs.declared.res.Res.TheVariants as res;
ghost use Rattle.rules_machine.specs.Cancellation.{on_live};
ghost use Rattle.rules_machine.specs.Signals.{acceptor, becomes_pending, delivers, is_full, record_of_kill, record_of_sigqueue, sends_signal};
ghost use Rattle.rules_machine.specs.Threads.{is_blocked, thread_at};
ghost use Rattle.rules_machine.specs.Turns.{returns, ◌▷◌};
ghost use Rattle.rules_machine.specs.Waking.{wakes};
ghost use Rattle.kernel_state.specs.Caught.{HasRoomToPend};
ghost use Rattle.kernel_state.specs.Does.{Does};
ghost use Rattle.kernel_state.specs.Caller.{caller};
ghost use Rattle.kernel_state.specs.Callers.{CanWake};
ghost use Rattle.calls_signals.specs.Premises.{CanSend};

use calls_generation::{accept, is_ignored};
use kernel_signals::SignalRecord;
use kernel_state::{Caller, Parts};
use parts_io::Sink;
use parts_tracer::Tracer;
use words_numbers::{Res, Tid};

// The call returns, and a thread that waits for the signal accepts it.
#[tactic(auto, using(calls_generation::proofs::Returned::returned_blocked, calls_generation::proofs::Returned::returned_rests))]
fn send_to_acceptor<K: Sink>(
    p: &mut Parts,
    by: &Caller<'_>,
    w: Tid,
    r: &SignalRecord,
    out: &mut Tracer<'_, K>,
)
    requires known { by.now.thread < length p.old.names }
    requires waiter { w < length p.old.names }
    requires can { CanWake p.old }
    requires blocked { is_blocked (thread_at p.old.machine w).status ≡ true }
    ensures { Does K.text K.faults (λ s. s ▷ returns (caller by.now) res.Zero 0 ▷ delivers w r.now ▷ wakes w res.Zero r.now.signal) p.old p.new out.old out.new }
{
    p.returns(by, Res::Zero, 0, out);
    accept(p, w, r, out);
}

// The call returns, and the signal becomes pending.
#[tactic(auto, using(calls_generation::proofs::Returned::returned_pends))]
fn send_pending<K: Sink>(p: &mut Parts, by: &Caller<'_>, r: &SignalRecord, out: &mut Tracer<'_, K>)
    requires known { by.now.thread < length p.old.names }
    requires signal { r.now.signal < 32 }
    requires pends { HasRoomToPend p.old.machine }
    requires serial { p.old.machine.next_serial < 2 ^ 63 }
    ensures { Does K.text K.faults (λ s. s ▷ returns (caller by.now) res.Zero 0 ▷ becomes_pending r.now) p.old p.new out.old out.new }
{
    p.returns(by, Res::Zero, 0, out);
    p.pend(*r);
}

// Nobody accepts the signal: it is ignored, or there is no room, or it becomes pending.
#[tactic(auto, using(crate::proofs::Sent::as_ignored, crate::proofs::Sent::as_full, crate::proofs::Sent::as_pending, crate::proofs::Sent::told_ignored, crate::proofs::Sent::told_full, crate::proofs::Sent::told_pending))]
fn send_unaccepted<K: Sink>(
    p: &mut Parts,
    by: &Caller<'_>,
    r: &SignalRecord,
    out: &mut Tracer<'_, K>,
)
    requires known { by.now.thread < length p.old.names }
    requires signal { r.now.signal < 32 }
    requires nobody { acceptor p.old.machine r.now ≡ None }
    requires pends { is_full p.old.machine ≡ false → HasRoomToPend p.old.machine }
    requires serial { p.old.machine.next_serial < 2 ^ 63 }
    ensures { Does K.text K.faults (sends_signal (caller by.now) r.now) p.old p.new out.old out.new }
{
    if is_ignored(p, r) {
        p.returns(by, Res::Zero, 0, out);
    } else if p.is_full() {
        p.returns(by, Res::Again, 0, out);
    } else {
        send_pending(p, by, r, out);
    }
}

// The record, which a call of the thread generates, is accepted by a thread that waits for it, or is ignored, or becomes pending,
// unless there is no room.
#[tactic(auto, using(crate::proofs::Sent::as_sent_to, crate::proofs::Sent::told_sent_to, calls_generation::proofs::Generated::nobody_accepts))]
fn send<K: Sink>(p: &mut Parts, by: &Caller<'_>, r: &SignalRecord, out: &mut Tracer<'_, K>)
    requires known { by.now.thread < length p.old.names }
    requires signal { r.now.signal < 32 }
    requires target { IfSome r.now.target (λ u. u < length p.old.names) }
    requires can { CanSend p.old }
    ensures { Does K.text K.faults (sends_signal (caller by.now) r.now) p.old p.new out.old out.new }
{
    match p.acceptor(r) {
        Some(w) => send_to_acceptor(p, by, w, r, out),
        None => send_unaccepted(p, by, r, out),
    }
}

/// `kill`.
pub(crate) fn kill<K: Sink>(p: &mut Parts, by: &Caller<'_>, signal: u8, out: &mut Tracer<'_, K>)
    requires known { by.now.thread < length p.old.names }
    requires signal { signal < 32 }
    requires can { CanSend p.old }
    ensures { Does K.text K.faults (sends_signal (caller by.now) (record_of_kill signal None)) p.old p.new out.old out.new }
{
    let r = SignalRecord::of_kill(signal, None);
    send(p, by, &r, out);
}

// The signal goes to a thread that lives.
fn kill_live<K: Sink>(p: &mut Parts, by: &Caller<'_>, u: Tid, signal: u8, out: &mut Tracer<'_, K>)
    requires known { by.now.thread < length p.old.names }
    requires thread { u < length p.old.names }
    requires signal { signal < 32 }
    requires can { CanSend p.old }
    ensures { Does K.text K.faults (sends_signal (caller by.now) (record_of_kill signal (Some u))) p.old p.new out.old out.new }
{
    let r = SignalRecord::of_kill(signal, Some(u));
    send(p, by, &r, out);
}

/// `pthread_kill`.
pub(crate) fn tkill<K: Sink>(
    p: &mut Parts,
    by: &Caller<'_>,
    u: Tid,
    signal: u8,
    out: &mut Tracer<'_, K>,
)
    requires known { by.now.thread < length p.old.names }
    requires thread { u < length p.old.names }
    requires signal { signal < 32 }
    requires can { CanSend p.old }
    ensures { Does K.text K.faults (on_live (caller by.now) u (sends_signal (caller by.now) (record_of_kill signal (Some u)))) p.old p.new out.old out.new }
{
    if p.thread(u).is_live() {
        kill_live(p, by, u, signal, out);
    } else {
        p.returns(by, Res::Srch, 0, out);
    }
}

/// `sigqueue`.
pub(crate) fn sigqueue<K: Sink>(
    p: &mut Parts,
    by: &Caller<'_>,
    signal: u8,
    value: u64,
    out: &mut Tracer<'_, K>,
)
    requires known { by.now.thread < length p.old.names }
    requires signal { signal < 32 }
    requires can { CanSend p.old }
    ensures { Does K.text K.faults (sends_signal (caller by.now) (record_of_sigqueue signal value)) p.old p.new out.old out.new }
{
    let r = SignalRecord::of_sigqueue(signal, value);
    send(p, by, &r, out);
}
