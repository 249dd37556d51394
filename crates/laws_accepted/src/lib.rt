//! What the reader's definition accepts, and what is generated, is well formed, so that the laws of the machine hold of its run. There is
//! no code here: two laws, and their proofs.
//!
//! Proved: `accepted_scripts_are_well_formed`: what `read` accepts has a quantum of at least 1, priorities from 1 to 255 alone,
//! and pushes and pops cleanup handlers by guarded blocks alone. `generated_scripts_are_well_formed`: so does the script of each
//! number.
#![tactic(auto)]

ghost use Rattle.std.specs.Prelude.{ℕ, ◌≡◌, List, Ok};
ghost use Rattle.rules_machine.specs.WellFormed.{IsWellFormed};
ghost use Rattle.script_generator.specs.Generated.{script_of};
ghost use Rattle.script_table.specs.Read.{read};
ghost use Rattle.script_table.specs.Table.{patterns};
ghost use Rattle.words_script.specs.declared.decl.Script.{Script};

/// Whatever text is read without a fault, its script has a round robin interval of a tick at least and priorities from 1 to 255 alone,
/// and it pushes and pops cleanup handlers by guarded blocks alone, in the bodies of threads, at most eight inside one another.
pub fn accepted_scripts_are_well_formed()
    ensures { (text : List ℕ) (script : Script) → read patterns text ≡ Ok script → IsWellFormed script }
{}

/// So has the script of each number, which `script_generator::make` makes.
pub fn generated_scripts_are_well_formed()
    ensures { (number : ℕ) → IsWellFormed (script_of number) }
{}
