//! The forms of lines: one for each pattern.

/// What a line of a script is.
#[derive(Clone, Copy)]
pub enum Form {
    Quantum,
    /// A declaration of an object without a body.
    Object(ObjectForm),
    /// What a signal does.
    Action(ActionForm),
    /// A declaration that opens a body.
    Body(BodyForm),
    Step(StepForm),
    Call(CallForm),
    /// A step that opens a block.
    Block(BlockForm),
    /// A line that closes a block or a body.
    Close(CloseForm),
}

#[derive(Clone, Copy)]
pub enum ObjectForm {
    MutexNone,
    MutexNoneRecursive,
    MutexInherit,
    MutexInheritRecursive,
    MutexProtect,
    MutexProtectRecursive,
    Cond,
    Sem,
    Queue,
    QueueNonblock,
    Timer,
    TimerReal,
}

#[derive(Clone, Copy)]
pub enum ActionForm {
    Ignore,
    Run,
}

#[derive(Clone, Copy)]
pub enum BodyForm {
    FifoAt,
    FifoDormant,
    RrAt,
    RrDormant,
    SporadicAt,
    SporadicDormant,
    /// Of a script of version 2, as the next.
    StrictAt,
    StrictDormant,
    Handler,
    Cleanup,
}

#[derive(Clone, Copy)]
pub enum StepForm {
    Run,
    Set,
    Add,
    Take,
}

#[derive(Clone, Copy)]
pub enum BlockForm {
    If,
    Unless,
    Loop,
    Forever,
    Push,
}

#[derive(Clone, Copy)]
pub enum CloseForm {
    End,
    /// `pop 0`: the cleanup handler does not run.
    Pop,
    /// `pop 1`: the cleanup handler runs.
    PopRun,
}

#[derive(Clone, Copy)]
pub enum CallForm {
    Thread(ThreadCall),
    Mutex(MutexCall),
    Sem(SemCall),
    Time(TimeCall),
    Signal(SignalCall),
    Message(MessageCall),
}

/// Calls on threads, their scheduling and their cancellation.
#[derive(Clone, Copy)]
pub enum ThreadCall {
    Yield,
    Create,
    Join,
    Cancel,
    Testcancel,
    SetcancelEnable,
    SetcancelDisable,
    Exit,
    Setprio,
    SetschedFifo,
    SetschedRr,
    SetschedSporadic,
    /// Of a script of version 2.
    SetschedStrict,
}

/// Calls on mutexes and conditions.
#[derive(Clone, Copy)]
pub enum MutexCall {
    Lock,
    Timedlock,
    TimedlockReal,
    Trylock,
    Unlock,
    Wait,
    Timedwait,
    TimedwaitReal,
    Signal,
    Broadcast,
}

#[derive(Clone, Copy)]
pub enum SemCall {
    Wait,
    Timedwait,
    TimedwaitReal,
    Trywait,
    Getvalue,
    Post,
}

/// Calls on clocks and timers.
#[derive(Clone, Copy)]
pub enum TimeCall {
    Nanosleep,
    ClockNanosleep,
    ClockNanosleepReal,
    Gettime,
    RealGettime,
    ClockSettime,
    TimerSettimeRel,
    TimerSettimeAbs,
    TimerGettime,
    TimerGetoverrun,
}

#[derive(Clone, Copy)]
pub enum SignalCall {
    Kill,
    Tkill,
    Sigqueue,
    SigmaskBlock,
    SigmaskUnblock,
    SigmaskSet,
    Sigwaitinfo,
    Sigtimedwait,
}

/// Calls on message queues.
#[derive(Clone, Copy)]
pub enum MessageCall {
    Send,
    Timedsend,
    TimedsendReal,
    Receive,
    Timedreceive,
    TimedreceiveReal,
    Notify,
}
