//! A generated signal.
ghost use Rattle.std.specs.Prelude.{◌≡◌, ◌∷◌};
ghost use Rattle.rules_machine.specs.Queues.{record_of_notification};
ghost use Rattle.rules_machine.specs.Signals.{record_of_kill, record_of_sigqueue};
ghost use Rattle.rules_machine.specs.State as machine;

use std::marker::Model;
use words_numbers::{ObjId, SigCode, Tid};

/// A generated signal, 0 to 31. Without a target it is for the process. Until it becomes pending its serial is 0.
#[derive(Clone, Copy)]
pub struct SignalRecord {
    signal: u8,
    code: SigCode,
    value: u64,
    target: Option<Tid>,
    timer: Option<ObjId>,
    queue: Option<ObjId>,
    serial: u64,
}

impl Model for SignalRecord {
    ghost use Rattle.rules_machine.specs.State as machine;

    ghost Value = { machine.SignalRecord };

    ghost view = { λ r. record { signal = r.signal; code = r.code; value = r.value; target = r.target; timer = r.timer; queue = r.queue; serial = r.serial } };

    ghost inverse = { λ r. record { signal = r.signal; code = r.code; value = r.value; target = r.target; timer = r.timer; queue = r.queue; serial = r.serial } };
}

impl SignalRecord {
    /// By kill, or with a target by pthread_kill.
    pub fn of_kill(signal: u8, target: Option<Tid>) -> SignalRecord
        ensures { result ≡ record_of_kill signal target }
    {
        SignalRecord {
            signal,
            code: SigCode::User,
            value: 0,
            target,
            timer: None,
            queue: None,
            serial: 0,
        }
    }

    /// By sigqueue.
    pub fn of_sigqueue(signal: u8, value: u64) -> SignalRecord
        ensures { result ≡ record_of_sigqueue signal value }
    {
        SignalRecord {
            signal,
            code: SigCode::Queue,
            value,
            target: None,
            timer: None,
            queue: None,
            serial: 0,
        }
    }

    /// By the expiry of a timer, with that timer's signal and value.
    pub fn of_timer(timer: ObjId, signal: u8, value: u64) -> SignalRecord
        ensures { result ≡ record (record_of_sigqueue signal value) { code = SigCode.Timer; timer = Some timer } }
    {
        SignalRecord {
            signal,
            code: SigCode::Timer,
            value,
            target: None,
            timer: Some(timer),
            queue: None,
            serial: 0,
        }
    }

    /// By a message that came to an empty queue, with the signal and the value that were asked for.
    pub fn of_queue(queue: ObjId, signal: u8, value: u64) -> SignalRecord
        ensures { result ≡ record_of_notification queue (record { signal = signal; value = value }) }
    {
        SignalRecord {
            signal,
            code: SigCode::Mesgq,
            value,
            target: None,
            timer: None,
            queue: Some(queue),
            serial: 0,
        }
    }

    pub(crate) fn pending_since(self, serial: u64) -> SignalRecord
        ensures { result ≡ record self { serial = serial } }
    {
        SignalRecord {
            signal: self.signal,
            code: self.code,
            value: self.value,
            target: self.target,
            timer: self.timer,
            queue: self.queue,
            serial,
        }
    }

    pub fn signal(&self) -> u8
        ensures { result ≡ self.now.signal }
    {
        self.signal
    }

    pub fn code(&self) -> SigCode
        ensures { result ≡ self.now.code }
    {
        self.code
    }

    pub fn value(&self) -> u64
        ensures { result ≡ self.now.value }
    {
        self.value
    }

    /// The thread that it is for. None exactly where it is for the process.
    pub fn target(&self) -> Option<Tid>
        ensures { result ≡ self.now.target }
    {
        self.target
    }

    pub fn timer(&self) -> Option<ObjId>
        ensures { result ≡ self.now.timer }
    {
        self.timer
    }

    pub fn queue(&self) -> Option<ObjId>
        ensures { result ≡ self.now.queue }
    {
        self.queue
    }

    pub fn serial(&self) -> u64
        ensures { result ≡ self.now.serial }
    {
        self.serial
    }
}
