//! How threads are scheduled, and how mutexes treat their owners.
use words_numbers::{Params, Prio};

/// A scheduling policy with its parameters, IEEE 1003.1-2017, XSH 2.8.4.
#[derive(Clone, Copy)]
pub enum Policy {
    /// SCHED_FIFO.
    Fifo(Prio),
    /// SCHED_RR; the quantum is the script's.
    Rr(Prio),
    /// SCHED_SPORADIC.
    Sporadic(Params),
    /// A strict server (this project's own).
    Strict(Params),
}

/// The protocol of a mutex, IEEE 1003.1-2017, pthread_mutexattr_setprotocol.
#[derive(Clone, Copy)]
pub enum Protocol {
    /// PTHREAD_PRIO_NONE.
    Plain,
    /// PTHREAD_PRIO_INHERIT.
    Inherit,
    /// PTHREAD_PRIO_PROTECT, with its ceiling.
    Protect(Prio),
}
