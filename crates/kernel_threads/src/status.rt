//! What a thread is doing, as plain data.
ghost use Rattle.std.specs.Prelude.{◌≡◌};
ghost use Rattle.rules_machine.specs.Conditions.{released_mutex, waits_on_condition};
ghost use Rattle.kernel_threads.specs.Plain.{wait_of};

use rules_machine::CondEnd;
use words_numbers::{ObjId, SigSet, Tick, Tid};
use words_script::Call;

/// A message of a queue.
#[derive(Clone, Copy)]
pub struct Message {
    pub priority: u8,
    pub value: u64,
}

/// What a blocked thread waits for.
#[derive(Clone, Copy)]
pub enum Wait {
    Mutex(ObjId),
    /// The mutex of its condition wait, which has ended.
    MutexAgain(ObjId, CondEnd),
    /// A condition, with the mutex that it released for it.
    Condition(ObjId, ObjId),
    /// That a thread ends.
    End(Tid),
    Semaphore(ObjId),
    Time,
    /// Room in a queue for its message.
    Room(ObjId, Message),
    Message(ObjId),
    /// A signal of a set.
    Signal(SigSet),
}

impl Wait {
    /// Whether it is for that condition.
    pub fn is_for_condition(&self, c: ObjId) -> bool
        ensures { result ≡ waits_on_condition c (wait_of self.now) }
    {
        match self {
            Wait::Condition(d, _) => *d == c,
            _ => false,
        }
    }

    /// The mutex that a condition wait released; `None` exactly where it is no condition wait.
    pub fn released_mutex(&self) -> Option<ObjId>
        ensures { result ≡ released_mutex (wait_of self.now) }
    {
        match self {
            Wait::Condition(_, k) => Some(*k),
            _ => None,
        }
    }
}

/// A wait: for what, since which serial, until when where there is a limit, and in which call.
#[derive(Clone, Copy)]
pub struct Waiting {
    pub wait: Wait,
    pub serial: u64,
    pub due: Option<Tick>,
    pub call: Call,
}

/// Whether a thread waits to start, may run, waits, or has ended.
#[derive(Clone, Copy)]
pub enum Status {
    Dormant(Option<u64>),
    Runnable,
    Blocked(Waiting),
    Ended,
}

/// What a thread does. When it starts, and its wait, stand beside it.
#[derive(Clone, Copy)]
pub enum Phase {
    Dormant,
    Runnable,
    Blocked,
    Ended,
}

/// Who joins a thread.
#[derive(Clone, Copy)]
pub enum Joiner {
    Nobody,
    WaitsToJoin(Tid),
    HasJoined,
}
