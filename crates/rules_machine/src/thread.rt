//! How a wait ended.

/// How a condition wait ended, while its thread waits to own the mutex again.
#[derive(Clone, Copy)]
pub enum CondEnd {
    Signalled,
    Timedout,
    Cancelled,
}
