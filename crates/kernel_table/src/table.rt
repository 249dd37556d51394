//! The threads, the chain of their claims, their places as waiters, the timers, the wheel of what falls due of threads and timers, and
//! which of them hold a reading of CLOCK_REALTIME.
ghost use Rattle.std.specs.Prelude.{◌≡◌, ◌<◌, ◌≤◌};

use crate::rare_set::RareSet;
use kernel_threads::Threads;
use kernel_timers::Timers;
use parts_owners::Chain;
use parts_waiters::Waits;
use parts_wheel::Wheel;
use std::marker::Model;

/// The threads with their mutexes, priorities and waits, and the interval timers.
#[derive(Drop)]
pub struct Table {
    pub(crate) threads: Threads,
    pub(crate) chain: Chain,
    pub(crate) waits: Waits,
    pub(crate) timers: Timers,
    pub(crate) wheel: Wheel,
    // the threads that wait, and the timers that expire next, when the clock reads a time
    pub(crate) real_waits: RareSet,
    pub(crate) real_expiries: RareSet,
}

impl Model for Table {
    ghost use Rattle.kernel_table.specs.Table as table;

    ghost Value = { table.Table };

    ghost use Rattle.kernel_table.specs.View.{IsInside, table_of};

    ghost view = { table_of };

    ghost invariant = { IsInside };
}
