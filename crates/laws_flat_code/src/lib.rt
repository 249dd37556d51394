//! The machine over the flat code of a script is the script's machine, and has its trace. There is no code here: two laws, and their
//! proofs.
//!
//! Proved: `flat_code_has_the_trace`: the text of a whole run over the script's flat code is the script's trace;
//! `flat_code_has_the_run`: its machine after each tick but for the places, its events, and how many of its instants are eventful are
//! the script's.
#![tactic(auto)]

ghost use Rattle.laws_flat_code.specs.Traces.{FlatBusy, FlatRuns, FlatTraces};

/// The text of a run over the flat code of a script is the script's trace.
#[tactic(auto, using(crate::proofs::Agrees::flat_traces))]
pub fn flat_code_has_the_trace()
    ensures { FlatTraces }
{}

/// After each number of ticks the machine over the flat code of a script is the script's machine, each place of a frame written as the
/// place in the code that stands for it; its events are the script's events, and as many of its instants are eventful.
pub fn flat_code_has_the_run()
    ensures runs { FlatRuns }
    ensures busy { FlatBusy }
{}
