//! The timers of a script, disarmed.
ghost use Rattle.std.specs.Prelude.{◌≡◌, ◌++◌, option_to_list, IfOk};
ghost use Rattle.rules_machine.specs.Declarations.{named, timer_kind, timers_of};

use crate::timer::Timer;
use std::alloc::{AllocError, Global};
use words_script::{Decl, Kind, Script};

// A timer that is declared there is put behind the others.
fn add_timer(timers: &mut Vec<Timer>, decl: &Decl) -> Result<(), AllocError>
    ensures { IfOk result (λ _. timers.new.items ≡ timers.old.items ++ option_to_list (named timer_kind decl.now)) }
{
    match decl {
        Decl::Named(_, Kind::Timer { sig, value, real }) => {
            timers.push(Timer::new(*sig, *value, *real))?;
            Ok(())
        }
        _ => Ok(()),
    }
}

pub(crate) fn open_timers(alloc: Global, script: &Script) -> Result<Vec<Timer>, AllocError>
    ensures { IfOk result (λ v. v.items ≡ timers_of script.now) }
{
    let mut timers = Vec::new(alloc);
    for decl in script.decls.items() {
        add_timer(&mut timers, decl)?;
    }
    Ok(timers)
}
