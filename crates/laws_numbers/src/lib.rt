//! No number of the machine is above 3·10^18, but the serials; and so the trace of every script that is read is spelled as one.
//!
//! Proved: the values, due ticks, messages and amounts of every run to an instant up to 10^18 are at most 3·10^18; each line of its trace has one
//! reading, which is what the run says; and without a setsched step the trace breaks no rule of an audit.
//!
//! Each function stands for a law, which its clause states. None of them does anything when it is called.
#![tactic(auto)]

ghost use Rattle.std.specs.Prelude.{◌≡◌, ◌≤◌, ◌^◌, ℕ, List, None, Ok, Some, length, map};
ghost use Rattle.script_lex.specs.Lines.{lines_of};
ghost use Rattle.tool_check.specs.Lines.{reading};
ghost use Rattle.script_table.specs.Read.{read};
ghost use Rattle.script_table.specs.Table.{patterns};
ghost use Rattle.words_script.specs.declared.decl.Script.{Script};
ghost use Rattle.rules_machine.specs.Declarations.{threads_of};
ghost use Rattle.rules_machine.specs.Machine.{bodies_of, machine, names_of, trace};
ghost use Rattle.rules_machine.specs.Runs.{opening};
ghost use Rattle.rules_machine.specs.Throughout.{after_items};
ghost use Rattle.tool_audit.specs.Breach.{first_breach};
ghost use Rattle.tool_audit.specs.declared.server.NamedServer.{NamedServer};
ghost use Rattle.laws_audit.specs.Calm.{HasNoSetsched};
ghost use Rattle.laws_audit.specs.Traces.{EachServerOf, NamesApart, TraceIsSpelled, trace_readings};
ghost use Rattle.laws_numbers.specs.Numbers.{NumbersAreSmall};

/// In the run of every script that is read without a fault, at every instant up to 10^18, and between the due items of one, no register,
/// value of a call, ticks left of a unit, message, exit value, due tick, amount or total of a server is above 3·10^18; nor is a number of
/// a timer, of a registration or of a pending signal. No semaphore, count of a mutex or count of overruns is above its limit.
#[tactic(auto, using(crate::proofs::Spelled::accepted_numbers, crate::proofs::Spelled::accepted_numbers_between))]
pub fn numbers_stay_small()
    ensures at_instants { (text : List ℕ) → (script : Script) → (n : ℕ) → read patterns text ≡ Ok script → n ≤ 10 ^ 18 → NumbersAreSmall (length (threads_of script)) n (machine script n) }
    ensures between_items { (text : List ℕ) → (script : Script) → (n : ℕ) → (k : ℕ) → read patterns text ≡ Ok script → n ≤ 10 ^ 18 → NumbersAreSmall (length (threads_of script)) n (after_items (bodies_of script) (opening script) n k) }
{}

/// The names of the threads of a script that is read without a fault tell its threads apart.
#[tactic(auto, using(crate::proofs::Spelled::accepted_apart))]
pub fn names_tell_threads_apart()
    ensures { (text : List ℕ) → (script : Script) → read patterns text ≡ Ok script → NamesApart (names_of script) }
{}

/// Each line of the trace of such a script is spelled as one: its thread has a name, and no number in it is above the greatest.
#[tactic(auto, using(crate::proofs::Spelled::accepted_spelled))]
pub fn traces_are_spelled()
    ensures { (text : List ℕ) → (script : Script) → (n : ℕ) → read patterns text ≡ Ok script → n ≤ 10 ^ 18 → TraceIsSpelled script n }
{}

/// So each line of that trace has one reading, and it is what the events, the end and the closing numbers of the run say.
#[tactic(auto, using(crate::proofs::Spelled::accepted_is_read))]
pub fn lines_have_one_reading()
    ensures { (text : List ℕ) → (script : Script) → (n : ℕ) → read patterns text ≡ Ok script → n ≤ 10 ^ 18 → map reading (lines_of (trace script n)) ≡ map Some (trace_readings script n) }
{}

/// And the trace of such a script without a setsched step breaks no rule, for servers that are sporadic threads of the script.
#[tactic(auto, using(crate::proofs::Spelled::accepted_breaks_none))]
pub fn traces_of_accepted_scripts_break_no_rule()
    ensures { (text : List ℕ) → (script : Script) → (n : ℕ) → (servers : List NamedServer) → read patterns text ≡ Ok script → n ≤ 10 ^ 18 → HasNoSetsched script → EachServerOf script servers → first_breach servers (trace script n) ≡ None }
{}
