//! What the kernel counts on in each state of the run of a script, whatever the script asks for.
//!
//! Proved: `states_fit`: in every state of the run of every well formed script that keeps to what the kernel asks, also between
//! due items, what a thread waits for is there, and so are the handlers of signals; each record that may become pending has a
//! place, serials are left until 10^18 ticks, and a thread that may run a handler has room for its frame.
//!
//! Each function stands for a law, which its clause states. None of them does anything when it is called.
#![tactic(auto)]

ghost use Rattle.words_script.specs.declared.decl.Script.{Script};
ghost use Rattle.rules_flat_code.specs.FlatBodies.{code_of, flat_bodies};
ghost use Rattle.rules_flat_code.specs.Runnable.{IsRunnable};
ghost use Rattle.rules_machine.specs.Runs.{opening};
ghost use Rattle.rules_machine.specs.Throughout.{HoldsThroughout};
ghost use Rattle.rules_machine.specs.WellFormed.{IsWellFormed};
ghost use Rattle.laws_kernel.specs.FitsKernel.{FitsKernel};

/// At each instant of the run of a script over its flat code, and between its due items: what a thread waits for is there, as are the
/// handlers of signals; there is a place for each record that may become pending, and a serial until 10^18 ticks; and a thread that may
/// run a signal-catching function has room for its frame.
#[tactic(auto, using(crate::proofs::Kept::states_fit))]
pub fn states_fit()
    ensures { (script : Script) → IsRunnable script → IsWellFormed script → HoldsThroughout (flat_bodies (code_of script)) (opening script) (FitsKernel script) }
{}
