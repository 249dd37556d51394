//! The threads, mutexes and timers of a script, before anything has happened.
ghost use Rattle.std.specs.Prelude.{◌≡◌, ◌≤◌, ◌<◌, ◌+◌, ◌++◌, None, IfOk, length, map, option_to_list};
ghost use Rattle.rules_machine.specs.Declarations.{mutex_kind, mutexes_of, named, threads_of, timers_of};
ghost use Rattle.rules_machine.specs.Runs.{thread_opened};
ghost use Rattle.parts_owners.specs.Fresh.{free_mutex};
ghost use Rattle.kernel_table.specs.Opening.{AreAssigned, NoneWaits};
ghost use Rattle.kernel_table.specs.Table as table;

use crate::links::reassign;
use crate::rare_set::RareSet;
use crate::table::Table;
use crate::times::time_all;
use kernel_threads::Threads;
use kernel_timers::Timers;
use parts_owners::{Chain, MutexKind};
use parts_waiters::Waits;
use parts_wheel::Wheel;
use std::alloc::{AllocError, Global};
use words_numbers::Tid;
use words_script::{Decl, Kind, Script};

// A mutex that is declared there is put behind the others.
fn add_mutex(kinds: &mut Vec<MutexKind>, decl: &Decl) -> Result<(), AllocError>
    ensures { IfOk result (λ _. map free_mutex kinds.new.items ≡ map free_mutex kinds.old.items ++ option_to_list (named mutex_kind decl.now)) }
{
    match decl {
        Decl::Named(
            _,
            Kind::Mutex {
                protocol,
                recursive,
            },
        ) => {
            kinds.push(MutexKind {
                protocol: *protocol,
                is_recursive: *recursive,
            })?;
            Ok(())
        }
        _ => Ok(()),
    }
}

// What the mutexes of a script are.
fn mutex_kinds(alloc: Global, script: &Script) -> Result<Vec<MutexKind>, AllocError>
    ensures { IfOk result (λ v. map free_mutex v.items ≡ mutexes_of script.now) }
{
    let mut kinds = Vec::new(alloc);
    for decl in script.decls.items() {
        add_mutex(&mut kinds, decl)?;
    }
    Ok(kinds)
}

pub(crate) fn tid_of(number: u16) -> Tid
    requires { number < 256 }
    ensures { result ≡ number }
{
    match Tid::try_new(number) {
        Some(t) => t,
        None => unreachable!(),
    }
}

// The chain takes the assigned priority of each thread.
fn assign_all(threads: &Threads, chain: &mut Chain, waits: &mut Waits)
    requires none { NoneWaits threads.now }
    requires first { AreAssigned threads.now 0 chain.old.mutexes chain.old waits.old }
    ensures { AreAssigned threads.now (length threads.now) chain.old.mutexes chain.new waits.new }
{
    for number in 0..threads.count() {
        reassign(threads, chain, waits, tid_of(number));
    }
}

impl Table {
    /// The dormant threads, the free mutexes and the disarmed timers of a script.
    pub fn open(alloc: Global, script: &Script) -> Result<Table, AllocError>
        requires threads { length (threads_of script.now) ≤ 256 }
        requires timers { length (timers_of script.now) ≤ 32 }
        ensures { IfOk result (λ t. t ≡ record { threads = map thread_opened (threads_of script.now); mutexes = mutexes_of script.now; timers = timers_of script.now }) }
    {
        let threads = Threads::open(alloc, script)?;
        let kinds = mutex_kinds(alloc, script)?;
        let mut chain = Chain::open(alloc, threads.count(), kinds.as_slice())?;
        let mut waits = Waits::open(alloc, threads.count())?;
        assign_all(&threads, &mut chain, &mut waits);
        let timers = Timers::open(alloc, script)?;
        let mut wheel = Wheel::open(alloc, 1024)?;
        time_all(&threads, &mut wheel);
        Ok(Table {
            threads,
            chain,
            waits,
            timers,
            wheel,
            real_waits: RareSet::empty(),
            real_expiries: RareSet::empty(),
        })
    }
}
