//! What the two versions of the script language have to do with one another. There is no code here: two laws, and their proofs.
//!
//! Proved: `upgraded_scripts_run_alike`: an upgraded script has the same events and closing lines to every horizon.
//! `first_versions_run_as_before`: a script of version 1 runs as on a machine without strict servers.
#![tactic(auto)]

ghost use Rattle.std.specs.Prelude.{ℕ, ◌≡◌, List, Ok};
ghost use Rattle.rules_machine.specs.Machine.{bodies_of};
ghost use Rattle.rules_machine.specs.Runs.{opening};
ghost use Rattle.laws_window.specs.Before.{RunsAsBefore};
ghost use Rattle.rules_bodies.specs.Next.{Place};
ghost use Rattle.script_table.specs.Read.{read};
ghost use Rattle.script_table.specs.Table.{patterns};
ghost use Rattle.script_writer.specs.Upgraded.{upgraded};
ghost use Rattle.words_script.specs.declared.decl.Script.{Script};
ghost use Rattle.laws_versions.specs.Versions.{RunsAlike};

/// A script as one of version 2 has the same events and the same closing lines as it was, up to every tick: the machine does not look
/// at the version.
pub fn upgraded_scripts_run_alike()
    ensures { (script : Script) (n : ℕ) → RunsAlike (upgraded script) script n }
{}

/// A script of version 1 has no strict thread and no setsched to one, so its run is what it was before there were strict servers: so
/// many ticks leave the same machine, with the same events, as they do without Close and Open.
pub fn first_versions_run_as_before()
    ensures { (text : List ℕ) (script : Script) → read patterns text ≡ Ok script → script.version ≡ 1
        → RunsAsBefore (bodies_of script) (opening {P = Place} script) }
{}
