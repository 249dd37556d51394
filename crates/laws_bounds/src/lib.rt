//! What the reader's definition accepts, and what is generated, the kernel can run. There is no code here: three laws, and their proofs.
//!
//! Proved: `accepted_scripts_are_runnable`: what `read` accepts keeps to what the kernel asks: at most 256 threads, 16 queues and
//! 32 timers, bodies that are not too long and not nested too deeply, calls and actions that name what is declared, and numbers in
//! range. `accepted_scripts_of_version_1_are_small`: at most 64 threads. `generated_scripts_are_runnable`: so does the script of
//! each number.
#![tactic(auto)]

ghost use Rattle.std.specs.Prelude.{ℕ, ◌≡◌, ◌≤◌, List, length, Ok};
ghost use Rattle.rules_machine.specs.Declarations.{threads_of};
ghost use Rattle.rules_flat_code.specs.Runnable.{IsRunnable};
ghost use Rattle.script_generator.specs.Generated.{script_of};
ghost use Rattle.script_table.specs.Read.{read};
ghost use Rattle.script_table.specs.Table.{patterns};
ghost use Rattle.words_script.specs.declared.decl.Script.{Script};

/// Whatever text is read without a fault, its script can be run: it has at most 256 threads, 16 queues and 32 timers, each body has at
/// most 65,536 steps and 16 blocks inside one another, each call and each action names what the script declares, the numbers of calls are in range, each
/// server has a budget, each semaphore's value is one that it may have, and each timer sends one of the 32 signals.
pub fn accepted_scripts_are_runnable()
    ensures { (text : List ℕ) (script : Script) → read patterns text ≡ Ok script → IsRunnable script }
{}

/// A script of version 1 has at most 64 threads.
pub fn accepted_scripts_of_version_1_are_small()
    ensures { (text : List ℕ) (script : Script) → read patterns text ≡ Ok script → script.version ≡ 1 → length (threads_of script) ≤ 64 }
{}

/// The script of each number, which `script_generator::make` makes, can be run.
pub fn generated_scripts_are_runnable()
    ensures { (number : ℕ) → IsRunnable (script_of number) }
{}
