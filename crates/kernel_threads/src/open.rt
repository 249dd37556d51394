//! The threads of a script, dormant.
ghost use Rattle.std.specs.Prelude.{◌≡◌, ◌≤◌, ◌++◌, map, option_to_list, IfOk};
ghost use Rattle.rules_machine.specs.Declarations.{declared_thread, threads_of};
ghost use Rattle.rules_machine.specs.Runs.{thread_opened};

use crate::thread::Thread;
use std::alloc::{AllocError, Global};
use words_script::{Decl, Kind, Script};

// A thread that is declared there is put behind the others.
fn add_thread(threads: &mut Vec<Thread>, decl: &Decl) -> Result<(), AllocError>
    ensures { IfOk result (λ _. threads.new.items ≡ threads.old.items ++ map thread_opened (option_to_list (declared_thread decl.now))) }
{
    match decl {
        Decl::Named(_, Kind::Thread { policy, start, .. }) => {
            threads.push(Thread::dormant(*policy, *start))?;
            Ok(())
        }
        _ => Ok(()),
    }
}

pub(crate) fn open_threads(alloc: Global, script: &Script) -> Result<Vec<Thread>, AllocError>
    ensures { IfOk result (λ v. v.items ≡ map thread_opened (threads_of script.now)) }
{
    let mut threads = Vec::new(alloc);
    for decl in script.decls.items() {
        add_thread(&mut threads, decl)?;
    }
    Ok(threads)
}
