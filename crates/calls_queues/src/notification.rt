//! The notification that is asked of a queue.
ghost use Rattle.std.specs.Prelude.{◌≡◌, ◌≤◌, ◌<◌, ◌^◌, IfSome, None, Some, length};
ghost use Rattle.words_numbers.specs.declared.res.Res.TheVariants as res;
ghost use Rattle.rules_machine.specs.Queues.{asks_notification, fired_by_message, is_notifying, notifies, record_of_notification, registered, waits_to_receive};
ghost use Rattle.rules_machine.specs.Signals.{generates};
ghost use Rattle.rules_machine.specs.Threads.{queue_at};
ghost use Rattle.rules_machine.specs.Turns.{changes_queue, returns, ◌▷◌};
ghost use Rattle.rules_machine.specs.Waiters.{somebody_waits};
ghost use Rattle.kernel_state.specs.Does.{Does};
ghost use Rattle.kernel_state.specs.Caller.{caller};
ghost use Rattle.calls_queues.specs.Premises.{CanNotify};

use calls_generation::generate;
use kernel_queues::Registration;
use kernel_signals::SignalRecord;
use kernel_state::{Caller, Parts};
use parts_io::Sink;
use parts_tracer::Tracer;
use words_numbers::{ObjId, Res};

// Whether a thread waits to receive from the queue.
#[tactic(auto, using(crate::proofs::Receivers::somebody_is))]
fn is_awaited(p: &Parts, q: ObjId) -> bool
    ensures { result ≡ somebody_waits p.now.machine (waits_to_receive q) }
{
    p.best_receiver(q).is_some()
}

/// The notification that a message fires as it enters; `None` exactly where it fires none.
pub(crate) fn fired_by_message(p: &Parts, q: ObjId) -> Option<Registration>
    requires { q < length p.now.machine.queues }
    ensures value { result ≡ fired_by_message p.now.machine q }
    ensures asked { IfSome result (λ r. (queue_at p.now.machine q).registration ≡ Some r) }
{
    if p.queue(q).is_empty() && !is_awaited(p, q) {
        p.queue(q).registration()
    } else {
        None
    }
}

// The notification is no longer asked for, and its signal is generated.
fn fire<K: Sink>(p: &mut Parts, r: &Registration, q: ObjId, out: &mut Tracer<'_, K>)
    requires known { q < length p.old.machine.queues }
    requires asked { (queue_at p.old.machine q).registration ≡ Some r.now }
    requires can { CanNotify p.old.machine q }
    requires room { length p.old.direct < 256 }
    ensures { Does K.text K.faults (λ s. s ▷ changes_queue q (registered None) ▷ generates (record_of_notification q r.now)) p.old p.new out.old out.new }
{
    p.register(q, None);
    let record = SignalRecord::of_queue(q, r.signal(), r.value());
    generate(p, &record, out);
}

/// The notification is sent, if there is one.
pub(crate) fn notify<K: Sink>(
    p: &mut Parts,
    fired: &Option<Registration>,
    q: ObjId,
    out: &mut Tracer<'_, K>,
)
    requires known { q < length p.old.machine.queues }
    requires asked { IfSome fired.now (λ r. (queue_at p.old.machine q).registration ≡ Some r) }
    requires can { CanNotify p.old.machine q }
    requires room { length p.old.direct < 256 }
    ensures { Does K.text K.faults (notifies fired.now q) p.old p.new out.old out.new }
{
    match fired {
        None => return,
        Some(r) => fire(p, r, q, out),
    }
}

// Whether a notification is asked for, or the last one is still pending.
fn is_notifying(p: &Parts, q: ObjId) -> bool
    requires { q < length p.now.machine.queues }
    ensures { result ≡ is_notifying p.now.machine q }
{
    p.queue(q).registration().is_some() || p.is_notification_pending(q)
}

// The notification is asked for, and the call returns.
fn register<K: Sink>(
    p: &mut Parts,
    by: &Caller<'_>,
    q: ObjId,
    r: Registration,
    out: &mut Tracer<'_, K>,
)
    requires known { by.now.thread < length p.old.names }
    requires queue { q < length p.old.machine.queues }
    ensures { Does K.text K.faults (λ s. s ▷ changes_queue q (registered (Some r)) ▷ returns (caller by.now) res.Zero 0) p.old p.new out.old out.new }
{
    p.register(q, Some(r));
    p.returns(by, Res::Zero, 0, out);
}

/// `mq_notify`.
pub(crate) fn mq_notify<K: Sink>(
    p: &mut Parts,
    by: &Caller<'_>,
    q: ObjId,
    signal: u8,
    value: u64,
    out: &mut Tracer<'_, K>,
)
    requires known { by.now.thread < length p.old.names }
    requires queue { q < length p.old.machine.queues }
    ensures { Does K.text K.faults (asks_notification (caller by.now) q (record { signal = signal; value = value })) p.old p.new out.old out.new }
{
    if is_notifying(p, q) {
        p.returns(by, Res::Busy, 0, out);
    } else {
        register(p, by, q, Registration::new(signal, value), out);
    }
}
