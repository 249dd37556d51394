//! Laws of each single thread over whole runs of the list machine: what one thread keeps through all calls, due items, sweeps and ticks,
//! whatever the others do.
//!
//! Proved: `head_runs`: each tick counts for the head of the highest list that is not empty, and for no other thread.
//! `threads_are_within`: no thread, round robin interval or server has counted more ticks than there were. `frames_are_placed`: over the flat
//! code of a script whose bodies can be flattened and whose calls name what it declares, each frame stands at a place of the
//! code, in order and at most three to a thread.
//!
//! Each function stands for a law, which its clause states. None of them does anything when it is called.
#![tactic(auto)]

ghost use Rattle.std.specs.Prelude.{ℕ};
ghost use Rattle.words_script.specs.declared.decl.Script.{Script};
ghost use Rattle.laws_threads.specs.Frames.{RunStaysPlaced};
ghost use Rattle.laws_threads.specs.HeadRuns.{HeadRuns};
ghost use Rattle.laws_threads.specs.Placeable.{IsPlaceable};
ghost use Rattle.laws_threads.specs.Within.{RunStaysWithin};

/// Each tick counts for the head of the highest list that is not empty, once the items of its instant are handled, and for no other
/// thread (IEEE 1003.1-2017, XSH 2.8.4). It counts for none where the process has ended.
#[tactic(auto, using(crate::proofs::HeadRuns::head_runs))]
pub fn head_runs()
    ensures { (script : Script) → (k : ℕ) → HeadRuns script k }
{}

/// No thread has run longer than the machine: its ticks, its round robin interval and what its server counts at the high priority are
/// at most the instant, in ticks. So it is at each instant, and between its due items.
#[tactic(auto, using(crate::proofs::Within::threads_are_within))]
pub fn threads_are_within()
    ensures { (script : Script) → RunStaysWithin script }
{}

/// In a run over the flat code of a script each frame of each thread is at a place of the code, and a thread has at most three frames:
/// that of a signal-catching function on top, below it that of a cleanup handler, and below that the main one (IEEE 1003.1-2017, XSH
/// 2.4.3 and 2.9.5.3; that there is at most one of each is this project's own). So it is at each instant, and between its due items.
#[tactic(auto, using(crate::proofs::FramesTaken::frames_are_placed))]
pub fn frames_are_placed()
    ensures { (script : Script) → IsPlaceable script → RunStaysPlaced script }
{}
