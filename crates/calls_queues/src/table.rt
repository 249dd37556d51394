//! The table of the calls of message queues.
ghost use Rattle.std.specs.Prelude.{◌≡◌, ◌<◌, length};
ghost use Rattle.rules_machine.specs.Calls.{call_effect};
ghost use Rattle.rules_machine.specs.Queues.{sends_message};
ghost use Rattle.rules_machine.specs.Threads.{number_of};
ghost use Rattle.rules_flat_code.specs.FlatBodies.{flat_bodies};
ghost use Rattle.rules_flat_code.specs.KnownCalls.{IsOperand, KnowsObjects};
ghost use Rattle.kernel_state.specs.RealTimes.{MayWaitUntil};
ghost use Rattle.kernel_state.specs.Does.{Does};
ghost use Rattle.kernel_state.specs.Caller.{caller};
ghost use Rattle.kernel_wakes.specs.Calls.{CanCall, objects_in};
ghost use Rattle.calls_queues.specs.Premises.{CanPass};
ghost use Rattle.calls_subjects.specs.Subjects.{subject_of};
ghost use Rattle.calls_subjects.specs.declared.Subject.TheVariants as subject;

use crate::notification::mq_notify;
use crate::receives::mq_receive;
use crate::sends::{Outgoing, mq_send};
use kernel_state::{Caller, Parts};
use parts_io::Sink;
use parts_tracer::Tracer;
use words_numbers::{ObjId, Tick};
use words_script::{Call, Operand};

// `mq_send`, and with a time `mq_timedsend`, of a value that a call names.
fn send<K: Sink>(
    p: &mut Parts,
    by: &Caller<'_>,
    queue: ObjId,
    len: u32,
    priority: u8,
    value: &Operand,
    due: Option<Tick>,
    out: &mut Tracer<'_, K>,
)
    requires caller { CanPass p.old by.now.thread }
    requires queue { queue < length p.old.machine.queues }
    requires priority { priority < 32 }
    requires fits { IsOperand value.now }
    requires modest { MayWaitUntil p.old.machine by.now.call.now due }
    ensures { Does K.text K.faults (sends_message (caller by.now) queue len (record { priority = priority; value = number_of p.old.machine by.now.thread value.now }) due) p.old p.new out.old out.new }
{
    let outgoing = Outgoing::new(len, priority, p.number(by.thread, value));
    mq_send(p, by, queue, outgoing, due, out);
}

/// The effect of a call on a message queue.
#[inline(always)]
pub fn do_queue_call<K: Sink>(p: &mut Parts, by: &Caller<'_>, out: &mut Tracer<'_, K>)
    requires caller { CanCall p.old by.now.thread }
    requires objects { KnowsObjects (objects_in p.old) by.now.call.now }
    requires subject { subject_of by.now.call.now ≡ subject.Queues }
    ensures { Does K.text K.faults (call_effect (flat_bodies p.old.code) (caller by.now) by.now.call.now) p.old p.new out.old out.new }
{
    match by.call {
        Call::MqSend(q, len, prio, v) => send(p, by, *q, *len, *prio, v, None, out),
        Call::MqTimedsend {
            queue,
            len,
            prio,
            value,
            at,
        } => {
            let due = Some(p.moment(by.thread, at));
            send(p, by, *queue, *len, *prio, value, due, out)
        }
        Call::MqReceive(q) => mq_receive(p, by, *q, None, out),
        Call::MqTimedreceive { queue, at } => mq_receive(
            p,
            by,
            *queue,
            Some(p.moment(by.thread, at)),
            out,
        ),
        Call::MqNotify(q, signal, v) => mq_notify(p, by, *q, *signal, p.number(by.thread, v), out),
        _ => unreachable!(),
    }
}
