//! What happens in a run.
use words_numbers::{Prio, Res, SigCode, Tick, Tid};

/// What happens at an instant of a run. Each event is a line of the trace.
#[derive(Clone, Copy)]
pub enum Event {
    /// The processor was given to a thread, which stands at the head of the list of this priority.
    Dispatch(Tid, Prio),
    /// No thread is runnable.
    Idle,
    /// A dormant thread became runnable.
    Start(Tid),
    /// A call returned with a result and a value.
    Return(Tid, CallName, Res, u64),
    /// A thread took a signal, with its code and its value.
    Deliver(Tid, u8, SigCode, u64),
    /// The activation time of a sporadic or strict thread is now, with this capacity in ticks.
    Activate(Tid, u64),
    /// A sporadic or strict thread used up its capacity.
    Exhaust(Tid),
    /// A replenishment was planned: its amount in ticks, and when it is due.
    Plan(Tid, u64, Tick),
    /// A replenishment was carried out: its amount, and the capacity after it, in ticks.
    Refill(Tid, u64, u64),
    /// A cancellation request acted.
    Cancel(Tid),
    /// A thread ended.
    Exit(Tid),
    /// A signal ended the process.
    Killed(u8),
    /// The run stopped.
    End,
}

/// The name of a call: the first word of its line.
#[derive(Clone, Copy, PartialEq, Eq)]
pub enum CallName {
    Yield,
    Create,
    Join,
    Cancel,
    Testcancel,
    Setcancel,
    Push,
    Pop,
    Exit,
    Setprio,
    Setsched,
    Lock,
    Timedlock,
    Trylock,
    Unlock,
    Wait,
    Timedwait,
    Signal,
    Broadcast,
    SemWait,
    SemTimedwait,
    SemTrywait,
    SemGetvalue,
    SemPost,
    Nanosleep,
    ClockNanosleep,
    Gettime,
    RealGettime,
    ClockSettime,
    TimerSettime,
    TimerGettime,
    TimerGetoverrun,
    Kill,
    Tkill,
    Sigqueue,
    Sigmask,
    Sigwaitinfo,
    Sigtimedwait,
    MqSend,
    MqTimedsend,
    MqReceive,
    MqTimedreceive,
    MqNotify,
}
