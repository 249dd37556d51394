//! What every execution priority is.
ghost use Rattle.kernel_settling.specs.Settled.{HavePriorities};

use kernel_state::Parts;

/// Costs nothing when it runs: all priorities are in their range.
#[tactic(auto, using(crate::proofs::InRange::all_small))]
pub fn know_priorities(p: &Parts)
    ensures { HavePriorities p.now.machine }
{
    let table = p.table();
    table.priorities_fit();
    table.owners_are_threads();
}
