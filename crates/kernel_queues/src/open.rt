//! The queues of a script, empty.
ghost use Rattle.std.specs.Prelude.{◌≡◌, ◌++◌, option_to_list, IfOk};
ghost use Rattle.rules_machine.specs.Declarations.{named, queue_kind, queues_of};

use crate::queue::MessageQueue;
use std::alloc::{AllocError, Global};
use words_script::{Decl, Kind, Script};

// A queue that is declared there is put behind the others.
fn add_queue(alloc: Global, queues: &mut Vec<MessageQueue>, decl: &Decl) -> Result<(), AllocError>
    ensures { IfOk result (λ _. queues.new.items ≡ queues.old.items ++ option_to_list (named queue_kind decl.now)) }
{
    match decl {
        Decl::Named(
            _,
            Kind::Queue {
                depth,
                max_len,
                nonblock,
            },
        ) => {
            queues.push(MessageQueue::open(alloc, *depth, *max_len, *nonblock)?)?;
            Ok(())
        }
        _ => Ok(()),
    }
}

pub(crate) fn open_queues(alloc: Global, script: &Script) -> Result<Vec<MessageQueue>, AllocError>
    ensures { IfOk result (λ v. v.items ≡ queues_of script.now) }
{
    let mut queues = Vec::new(alloc);
    for decl in script.decls.items() {
        add_queue(alloc, &mut queues, decl)?;
    }
    Ok(queues)
}
