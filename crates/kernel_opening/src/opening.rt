//! The kernel of a script.
ghost use Rattle.std.specs.Prelude.{◌≡◌, ◌≤◌, ◌<◌, ◌+◌, [], length, option_to_list, IfOk};
ghost use Rattle.rules_lists.specs.Lists.{empty_lists};
ghost use Rattle.rules_machine.specs.Declarations.{declared_thread, queues_of, semaphores_of, threads_of};
ghost use Rattle.rules_machine.specs.Machine.{names_of};
ghost use Rattle.kernel_threads.specs.Opening.{with_name};
ghost use Rattle.kernel_state.specs.Kernel.{opened};
ghost use Rattle.rules_flat_code.specs.FlatBodies.{code_of};
ghost use Rattle.rules_flat_code.specs.Runnable.{IsRunnable};

use kernel_queues::Queues;
use kernel_semaphores::Semaphores;
use kernel_signals::Pending;
use kernel_state::{Objects, Parts, RunBy};
use kernel_table::Table;
use parts_ready::Ready;
use parts_tracer::Names;
use std::alloc::{AllocError, Global};
use words_numbers::Tid;
use words_script::{Decl, Kind, Script};

fn tid_of(place: usize) -> Tid
    requires { place < 256 }
    ensures { result ≡ place }
{
    match Tid::try_new(place as u16) {
        Some(t) => t,
        None => unreachable!(),
    }
}

// A thread that is declared there has the next name; the number of the name after it.
fn add_name(names: &mut Names, t: usize, decl: &Decl) -> usize
    requires room { t + length (option_to_list (declared_thread decl.now)) ≤ length names.old }
    requires few { length names.old ≤ 256 }
    ensures names { names.new ≡ with_name names.old t (declared_thread decl.now) }
    ensures next { result ≡ t + length (option_to_list (declared_thread decl.now)) }
{
    match decl {
        Decl::Named(name, Kind::Thread { .. }) => {
            names.set(tid_of(t), name.bytes());
            t + 1
        }
        _ => t,
    }
}

/// The names of a script's threads, which are that many.
fn open_names(alloc: Global, script: &Script, threads: u16) -> Result<Names, AllocError>
    requires all { threads ≡ length (threads_of script.now) }
    requires few { threads ≤ 256 }
    ensures { IfOk result (λ names. names ≡ names_of script.now) }
{
    let mut names = Names::open(alloc, threads)?;
    let mut t = 0;
    for decl in script.decls.items() {
        t = add_name(&mut names, t, decl);
    }
    Ok(names)
}

fn open_run_by(alloc: Global, script: &Script, threads: u16) -> Result<RunBy, AllocError>
    requires runnable { IsRunnable script.now }
    requires all { threads ≡ length (threads_of script.now) }
    requires few { threads ≤ 256 }
    ensures names { IfOk result (λ r. r.names ≡ names_of script.now) }
    ensures code { IfOk result (λ r. r.code ≡ code_of script.now) }
    ensures ready { IfOk result (λ r. r.ready ≡ record { threads = threads; lists = empty_lists }) }
{
    Ok(RunBy {
        names: open_names(alloc, script, threads)?,
        code: script_flattener::open(alloc, script)?,
        ready: Ready::open(alloc, threads)?,
    })
}

fn open_objects(alloc: Global, script: &Script) -> Result<Objects, AllocError>
    requires { IsRunnable script.now }
    ensures semaphores { IfOk result (λ o. o.semaphores ≡ semaphores_of script.now) }
    ensures queues { IfOk result (λ o. o.queues ≡ queues_of script.now) }
    ensures pending { IfOk result (λ o. o.pending ≡ []) }
{
    Ok(Objects {
        semaphores: Semaphores::open(alloc, script)?,
        queues: Queues::open(alloc, script)?,
        pending: Pending::open(alloc)?,
    })
}

/// The kernel of a script, before the first tick. It takes all memory that the run needs.
pub fn open(alloc: Global, script: &Script) -> Result<Box<Parts>, AllocError>
    requires { IsRunnable script.now }
    ensures { IfOk result (λ k. k.value ≡ opened script.now) }
{
    let table = Table::open(alloc, script)?;
    let by = open_run_by(alloc, script, table.count())?;
    let objects = open_objects(alloc, script)?;
    Ok(Box::new(alloc, Parts::of(script, table, by, objects))?)
}
