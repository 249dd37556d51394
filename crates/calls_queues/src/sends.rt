//! Sending a message: `mq_send` and `mq_timedsend`.
ghost use Rattle.std.specs.Prelude.{◌≡◌, ◌<◌, None, length, true};
ghost use Rattle.words_numbers.specs.declared.res.Res.TheVariants as res;
ghost use Rattle.rules_machine.specs.Queues.{sends_message, reaches_receiver_or_queue};
ghost use Rattle.rules_machine.specs.Threads.{is_blocked, thread_at};
ghost use Rattle.rules_machine.specs.Turns.{returns, ◌▷◌};
ghost use Rattle.rules_machine.specs.Waking.{wakes};
ghost use Rattle.kernel_threads.specs.Plain.{message_of};
ghost use Rattle.kernel_state.specs.RealTimes.{MayWaitUntil};
ghost use Rattle.kernel_state.specs.Does.{Does};
ghost use Rattle.kernel_state.specs.Caller.{caller};
ghost use Rattle.kernel_state.specs.Callers.{CanWake, IsRunning};
ghost use Rattle.calls_queues.specs.Premises.{CanNotify, CanPass};

use crate::blocks::block_unless_nonblock;
use crate::entries::enter_and_return;
use kernel_state::{Caller, Parts};
use kernel_threads::{Message, Wait};
use kernel_wakes::wake;
use parts_io::Sink;
use parts_tracer::Tracer;
use words_numbers::{ObjId, Res, Tick, Tid};

/// A message that a call sends, and its length in bytes.
#[derive(Clone, Copy)]
pub struct Outgoing {
    length: u32,
    message: Message,
}

impl Outgoing {
    pub(crate) fn new(length: u32, priority: u8, value: u64) -> Outgoing
        ensures { result ≡ record { length = length; message = record { priority = priority; value = value } } }
    {
        Outgoing {
            length,
            message: Message { priority, value },
        }
    }
}

// The call returns, and the receiver that is served first wakes with the message.
#[inline(always)]
fn hand_to_receiver<K: Sink>(
    p: &mut Parts,
    by: &Caller<'_>,
    receiver: Tid,
    value: u64,
    out: &mut Tracer<'_, K>,
)
    requires known { by.now.thread < length p.old.names }
    requires receiver { receiver < length p.old.names }
    requires blocked { is_blocked (thread_at p.old.machine receiver).status ≡ true }
    requires can { CanWake p.old }
    ensures { Does K.text K.faults (λ s. s ▷ returns (caller by.now) res.Zero 0 ▷ wakes receiver res.Zero value) p.old p.new out.old out.new }
{
    p.returns_by::<K, 3>(by, Res::Zero, 0, out);
    wake(p, receiver, Res::Zero, value, out);
}

// Nobody waits to receive: the message enters where there is room, and else its sender waits.
fn send_to_queue<K: Sink>(
    p: &mut Parts,
    by: &Caller<'_>,
    q: ObjId,
    message: Message,
    due: Option<Tick>,
    out: &mut Tracer<'_, K>,
)
    requires caller { IsRunning p.old by.now.thread }
    requires queue { q < length p.old.machine.queues }
    requires priority { message.priority < 32 }
    requires can { CanNotify p.old.machine q }
    requires room { length p.old.direct < 255 }
    requires modest { MayWaitUntil p.old.machine by.now.call.now due }
    ensures { Does K.text K.faults (reaches_receiver_or_queue None (caller by.now) q (message_of message) due) p.old p.new out.old out.new }
{
    if p.queue(q).has_room() {
        enter_and_return(p, by, q, message, out);
    } else {
        block_unless_nonblock(p, by, q, Wait::Room(q, message), due, out);
    }
}

/// `mq_send`, and with a time `mq_timedsend`. The priority of the message is 0 to 31.
#[inline(always)]
pub(crate) fn mq_send<K: Sink>(
    p: &mut Parts,
    by: &Caller<'_>,
    queue: ObjId,
    outgoing: Outgoing,
    due: Option<Tick>,
    out: &mut Tracer<'_, K>,
)
    requires caller { CanPass p.old by.now.thread }
    requires queue { queue < length p.old.machine.queues }
    requires priority { outgoing.message.priority < 32 }
    requires modest { MayWaitUntil p.old.machine by.now.call.now due }
    ensures { Does K.text K.faults (sends_message (caller by.now) queue outgoing.length (message_of outgoing.message) due) p.old p.new out.old out.new }
{
    let Outgoing { length, message } = outgoing;
    if p.queue(queue).is_too_long(length) {
        p.returns(by, Res::Msgsize, 0, out);
    } else if let Some(receiver) = p.best_receiver(queue) {
        hand_to_receiver(p, by, receiver, message.value, out);
    } else {
        send_to_queue(p, by, queue, message, due, out);
    }
}
