//! How many things of each kind are declared.
ghost use Rattle.std.specs.Prelude.{◌≡◌, ◌≤◌, ◌<◌, ◌^◌, ◌==◌};
ghost use Rattle.script_table.specs.Names.{no_counts, counted, count_of};
ghost use Rattle.script_table.specs.Ranges.{is_over};

use script_table::NameKind;
use std::marker::Model;

// How many message queues, timers, and handlers and cleanup handlers together a script may have.
const MOST_QUEUES: u64 = 16;

const MOST_TIMERS: u64 = 32;

const MOST_ROUTINES: u128 = 64;

#[derive(Drop)]
pub(crate) struct Counts {
    threads: u64,
    mutexes: u64,
    conds: u64,
    sems: u64,
    queues: u64,
    timers: u64,
    handlers: u64,
    cleanups: u64,
}

impl Model for Counts {
    ghost use Rattle.script_table.specs.Names.{Counts as CountsOfKinds};

    ghost Value = { CountsOfKinds };

    ghost view = { λ c. record {
      threads = c.threads;
      mutexes = c.mutexes;
      conds = c.conds;
      sems = c.sems;
      queues = c.queues;
      timers = c.timers;
      handlers = c.handlers;
      cleanups = c.cleanups;
    } };
}

impl Counts {
    pub(crate) fn new() -> Counts
        ensures { result ≡ no_counts }
    {
        Counts {
            threads: 0,
            mutexes: 0,
            conds: 0,
            sems: 0,
            queues: 0,
            timers: 0,
            handlers: 0,
            cleanups: 0,
        }
    }

    /// How many there are of a kind.
    pub(crate) fn of(&self, kind: NameKind) -> u64
        ensures { result ≡ count_of self.now kind }
    {
        match kind {
            NameKind::Thread => self.threads,
            NameKind::Mutex => self.mutexes,
            NameKind::Cond => self.conds,
            NameKind::Sem => self.sems,
            NameKind::Queue => self.queues,
            NameKind::Timer => self.timers,
            NameKind::Handler => self.handlers,
            NameKind::Cleanup => self.cleanups,
        }
    }

    /// Counts one more of a kind.
    pub(crate) fn add(&mut self, kind: NameKind)
        requires { count_of self.old kind < 2 ^ 63 }
        ensures { self.new ≡ counted self.old kind }
    {
        match kind {
            NameKind::Thread => self.threads += 1,
            NameKind::Mutex => self.mutexes += 1,
            NameKind::Cond => self.conds += 1,
            NameKind::Sem => self.sems += 1,
            NameKind::Queue => self.queues += 1,
            NameKind::Timer => self.timers += 1,
            NameKind::Handler => self.handlers += 1,
            NameKind::Cleanup => self.cleanups += 1,
        }
    }

    /// Whether there are too many of a kind, where there may be `most` threads, mutexes, conditions and semaphores of each.
    pub(crate) fn is_over(&self, most: u64, kind: NameKind) -> bool
        ensures { result ≡ is_over most self.now kind }
    {
        match kind {
            NameKind::Thread => self.threads > most,
            NameKind::Mutex => self.mutexes > most,
            NameKind::Cond => self.conds > most,
            NameKind::Sem => self.sems > most,
            NameKind::Queue => self.queues > MOST_QUEUES,
            NameKind::Timer => self.timers > MOST_TIMERS,
            NameKind::Handler => self.handlers as u128 + self.cleanups as u128 > MOST_ROUTINES,
            NameKind::Cleanup => self.handlers as u128 + self.cleanups as u128 > MOST_ROUTINES,
        }
    }

    pub(crate) fn has_no_thread(&self) -> bool
        ensures { result ≡ (self.now.threads == 0) }
    {
        self.threads == 0
    }
}
