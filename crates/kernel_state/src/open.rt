//! The parts of a script's kernel, put together.
ghost use Rattle.std.specs.Prelude.{◌≡◌, [], length, map};
ghost use Rattle.rules_lists.specs.Lists.{empty_lists};
ghost use Rattle.rules_machine.specs.Declarations.{mutexes_of, queues_of, semaphores_of, threads_of, timers_of};
ghost use Rattle.rules_machine.specs.Machine.{names_of};
ghost use Rattle.rules_machine.specs.Runs.{thread_opened};
ghost use Rattle.rules_flat_code.specs.FlatBodies.{code_of};
ghost use Rattle.rules_flat_code.specs.Runnable.{IsRunnable};
ghost use Rattle.kernel_state.specs.Kernel.{opened};

use crate::clock::Clock;
use crate::direct::Direct;
use crate::named::Named;
use crate::parts::Parts;
use kernel_queues::Queues;
use kernel_semaphores::Semaphores;
use kernel_signals::{Actions, Pending};
use kernel_table::Table;
use parts_ready::Ready;
use parts_tracer::Names;
use rules_machine::LastDispatch;
use script_code::Code;
use words_numbers::Tick;
use words_script::Script;

/// What threads run by beside their table: their names, their code, and the lists that they stand on.
#[derive(Drop)]
pub struct RunBy {
    pub names: Names,
    pub code: Code,
    pub ready: Ready,
}

/// The objects that the table does not have.
#[derive(Drop)]
pub struct Objects {
    pub semaphores: Semaphores,
    pub queues: Queues,
    pub pending: Pending,
}

impl Parts {
    /// The kernel of a script before the first tick, of its parts as they are opened.
    pub fn of(script: &Script, table: Table, by: RunBy, objects: Objects) -> Parts
        requires runnable { IsRunnable script.now }
        requires table { table ≡ record { threads = map thread_opened (threads_of script.now); mutexes = mutexes_of script.now; timers = timers_of script.now } }
        requires names { by.names ≡ names_of script.now }
        requires code { by.code ≡ code_of script.now }
        requires ready { by.ready ≡ record { threads = length table.threads; lists = empty_lists } }
        requires semaphores { objects.semaphores ≡ semaphores_of script.now }
        requires queues { objects.queues ≡ queues_of script.now }
        requires pending { objects.pending ≡ [] }
        ensures { result ≡ opened script.now }
    {
        Parts {
            code: by.code,
            names: by.names,
            table,
            ready: by.ready,
            semaphores: objects.semaphores,
            queues: objects.queues,
            pending: objects.pending,
            actions: Actions::open(script),
            quantum: script.quantum,
            instant: Tick::default(),
            clock: Clock::new(),
            last: LastDispatch::NoTick,
            next_serial: 0,
            killed: None,
            direct: Direct::empty(),
            named: Named::none(),
        }
    }
}
