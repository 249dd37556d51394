//! The window of strict threads in the run of a script.
//!
//! Proved: `windows_are_kept`: in the run of every well formed script, in every window of one period in which its parameters
//! stand, a strict thread runs at most its initial budget of ticks at its high priority. `runs_are_as_before`: where no thread
//! and no setsched is strict, a run and its events are those of a machine without such servers.
#![tactic(auto)]

ghost use Rattle.words_script.specs.declared.decl.Script.{Script};
ghost use Rattle.rules_bodies.specs.Next.{Place};
ghost use Rattle.rules_machine.specs.WellFormed.{IsWellFormed};
ghost use Rattle.rules_machine.specs.Machine.{bodies_of};
ghost use Rattle.rules_machine.specs.Runs.{opening};
ghost use Rattle.laws_window.specs.Before.{AreBodiesPlain, AreThreadsPlain, RunsAsBefore};
ghost use Rattle.laws_window.specs.Window.{RunKeepsWindows};

/// In every window of one period in which its parameters stand a strict thread runs at most its initial budget of ticks at its high
/// priority.
pub fn windows_are_kept()
    ensures { (script : Script) → IsWellFormed script → RunKeepsWindows script }
{}

/// Where no thread and no setsched is strict, so many ticks are what they were without Close and Open, with the same events.
pub fn runs_are_as_before()
    ensures { (script : Script) → IsWellFormed script → AreBodiesPlain (bodies_of script) → AreThreadsPlain (opening {P = Place} script) → RunsAsBefore (bodies_of script) (opening script) }
{}
