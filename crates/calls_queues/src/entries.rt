//! A message enters a queue.
ghost use Rattle.std.specs.Prelude.{◌≡◌, ◌<◌, length, true};
ghost use Rattle.words_numbers.specs.declared.res.Res.TheVariants as res;
ghost use Rattle.rules_machine.specs.Queues.{enters};
ghost use Rattle.rules_machine.specs.Threads.{is_blocked, thread_at};
ghost use Rattle.rules_machine.specs.Turns.{returns};
ghost use Rattle.rules_machine.specs.Waking.{wakes};
ghost use Rattle.kernel_threads.specs.Plain.{message_of};
ghost use Rattle.kernel_state.specs.Does.{Does};
ghost use Rattle.kernel_state.specs.Caller.{caller};
ghost use Rattle.calls_queues.specs.Premises.{CanEnter};

use crate::notification::{fired_by_message, notify};
use kernel_state::{Caller, Parts};
use kernel_threads::Message;
use kernel_wakes::wake;
use parts_io::Sink;
use parts_tracer::Tracer;
use words_numbers::{ObjId, Res, Tid};

/// The message enters, its call returns, and the notification comes last.
pub(crate) fn enter_and_return<K: Sink>(
    p: &mut Parts,
    by: &Caller<'_>,
    q: ObjId,
    message: Message,
    out: &mut Tracer<'_, K>,
)
    requires known { by.now.thread < length p.old.names }
    requires can { CanEnter p.old q (message_of message) }
    ensures { Does K.text K.faults (enters q (message_of message) (returns (caller by.now) res.Zero 0)) p.old p.new out.old out.new }
{
    let fired = fired_by_message(p, q);
    p.put_message(q, message.priority, message.value);
    p.returns(by, Res::Zero, 0, out);
    notify(p, &fired, q, out);
}

/// The message enters, its sender wakes, and the notification comes last.
pub(crate) fn enter_and_wake<K: Sink>(
    p: &mut Parts,
    sender: Tid,
    q: ObjId,
    message: Message,
    out: &mut Tracer<'_, K>,
)
    requires known { sender < length p.old.names }
    requires blocked { is_blocked (thread_at p.old.machine sender).status ≡ true }
    requires can { CanEnter p.old q (message_of message) }
    ensures { Does K.text K.faults (enters q (message_of message) (wakes sender res.Zero 0)) p.old p.new out.old out.new }
{
    let fired = fired_by_message(p, q);
    p.put_message(q, message.priority, message.value);
    wake(p, sender, Res::Zero, 0, out);
    notify(p, &fired, q, out);
}
