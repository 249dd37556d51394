//! Receiving a message: `mq_receive` and `mq_timedreceive`.
ghost use Rattle.std.specs.Prelude.{◌<◌, length};
ghost use Rattle.rules_machine.specs.Queues.{receives_message};
ghost use Rattle.kernel_state.specs.RealTimes.{MayWaitUntil};
ghost use Rattle.kernel_state.specs.Does.{Does};
ghost use Rattle.kernel_state.specs.Caller.{caller};
ghost use Rattle.calls_queues.specs.Receives.{hands_out, takes_over_from};
ghost use Rattle.calls_queues.specs.Premises.{CanNotify, CanPass, CanTakeOver};

use crate::blocks::block_unless_nonblock;
use crate::entries::enter_and_wake;
use kernel_state::{Caller, Parts};
use kernel_threads::Wait;
use parts_io::Sink;
use parts_tracer::Tracer;
use words_numbers::{ObjId, Res, Tick, Tid};

// The message of the sender, if there is one, enters.
fn take_over<K: Sink>(p: &mut Parts, sender: Option<Tid>, q: ObjId, out: &mut Tracer<'_, K>)
    requires sender { CanTakeOver p.old sender q }
    requires can { CanNotify p.old.machine q }
    ensures { Does K.text K.faults (takes_over_from sender q) p.old p.new out.old out.new }
{
    if let Some(w) = sender {
        let message = p.waiting_message(w);
        enter_and_wake(p, w, q, message, out);
    }
}

// The call returns with the value of the message that left, and the message of the sender enters.
fn hand_out<K: Sink>(
    p: &mut Parts,
    by: &Caller<'_>,
    value: u64,
    sender: Option<Tid>,
    q: ObjId,
    out: &mut Tracer<'_, K>,
)
    requires known { by.now.thread < length p.old.names }
    requires sender { CanTakeOver p.old sender q }
    requires can { CanNotify p.old.machine q }
    ensures { Does K.text K.faults (hands_out (caller by.now) value sender q) p.old p.new out.old out.new }
{
    p.returns(by, Res::Zero, value, out);
    take_over(p, sender, q, out);
}

/// `mq_receive`, and with a time `mq_timedreceive`.
pub(crate) fn mq_receive<K: Sink>(
    p: &mut Parts,
    by: &Caller<'_>,
    q: ObjId,
    due: Option<Tick>,
    out: &mut Tracer<'_, K>,
)
    requires caller { CanPass p.old by.now.thread }
    requires queue { q < length p.old.machine.queues }
    requires modest { MayWaitUntil p.old.machine by.now.call.now due }
    ensures { Does K.text K.faults (receives_message (caller by.now) q due) p.old p.new out.old out.new }
{
    let sender = p.best_sender(q);
    match p.take_message(q) {
        None => block_unless_nonblock(p, by, q, Wait::Message(q), due, out),
        Some(value) => hand_out(p, by, value, sender, q, out),
    }
}
