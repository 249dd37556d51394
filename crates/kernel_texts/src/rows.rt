//! The rows of facts: one fact for each thread, or for each object of a kind.

/// What is told of each thread in one row.
#[derive(Clone, Copy)]
pub enum ThreadRow {
    Status,
    Frames,
    Mask,
    Cancelability,
    Cleanups,
    Pending,
}

/// What is told of each object of a kind in one row.
#[derive(Clone, Copy)]
pub enum ObjectRow {
    Owner,
    MutexWaiters,
    ConditionWaiters,
    SemaphoreWaiters,
    Value,
    Messages,
    QueueWaiters,
    Registration,
    Arming,
}
