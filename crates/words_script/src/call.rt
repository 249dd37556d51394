//! The calls of a task.
use crate::Policy;
use words_numbers::{ObjId, Prio, SigSet, Tid};

/// A number, or the value of the frame's register.
#[derive(Clone, Copy)]
pub enum Operand {
    Num(u64),
    Reg,
}

/// An absolute time, with the clock that reads it.
#[derive(Clone, Copy)]
pub enum Moment {
    /// On CLOCK_MONOTONIC, which cannot be set.
    Monotonic(Operand),
    /// On CLOCK_REALTIME.
    Realtime(Operand),
}

/// A call with its operands, in the order of its line. Times are in ticks; `at` is an absolute time.
#[derive(Clone, Copy)]
pub enum Call {
    // threads
    Yield,
    Create(Tid),
    Join(Tid),
    Cancel(Tid),
    Testcancel,
    /// Whether cancellation becomes enabled.
    Setcancel(bool),
    /// Pushes a cleanup handler; it stands in units alone, a script has a guarded block.
    Push(ObjId),
    /// Pops the last cleanup handler, and runs it where the flag is set; it stands in units alone.
    Pop(bool),
    Exit(Operand),
    Setprio(Tid, Prio),
    Setsched(Tid, Policy),

    // mutexes and conditions
    Lock(ObjId),
    Timedlock {
        mutex: ObjId,
        at: Moment,
    },
    Trylock(ObjId),
    Unlock(ObjId),
    /// The condition, then the mutex.
    Wait(ObjId, ObjId),
    Timedwait {
        cond: ObjId,
        mutex: ObjId,
        at: Moment,
    },
    Signal(ObjId),
    Broadcast(ObjId),

    // semaphores
    SemWait(ObjId),
    SemTimedwait {
        sem: ObjId,
        at: Moment,
    },
    SemTrywait(ObjId),
    SemGetvalue(ObjId),
    SemPost(ObjId),

    // time
    Nanosleep(u64),
    ClockNanosleep {
        at: Moment,
    },
    Gettime,
    /// The reading of CLOCK_REALTIME.
    RealGettime,
    /// The time that CLOCK_REALTIME is set to.
    ClockSettime(Operand),
    /// The timer, the ticks to its first expiry, and its interval.
    TimerSettimeRel(ObjId, u64, u64),
    /// The timer, the time of its first expiry, and its interval.
    TimerSettimeAbs(ObjId, Operand, u64),
    TimerGettime(ObjId),
    TimerGetoverrun(ObjId),

    // signals
    /// The signal, 0 to 31.
    Kill(u8),
    Tkill(Tid, u8),
    Sigqueue(u8, Operand),
    SigmaskBlock(SigSet),
    SigmaskUnblock(SigSet),
    SigmaskSet(SigSet),
    Sigwaitinfo(SigSet),
    /// The signals, and the ticks to wait.
    Sigtimedwait(SigSet, u64),

    // messages
    /// The queue, the message's length in bytes, 0 to 65,536, its priority, 0 to 31, and its value.
    MqSend(ObjId, u32, u8, Operand),
    MqTimedsend {
        queue: ObjId,
        len: u32,
        prio: u8,
        value: Operand,
        at: Moment,
    },
    MqReceive(ObjId),
    MqTimedreceive {
        queue: ObjId,
        at: Moment,
    },
    /// The queue, the signal of the notification and its value.
    MqNotify(ObjId, u8, Operand),
}
