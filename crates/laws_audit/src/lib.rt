//! The traces of the machine break no rule of an audit.
//!
//! Proved: of a well formed script without a setsched step, no trace breaks a rule of its sporadic servers, where its lines are spelled as a trace is.
//!
//! Each function stands for a law, which its clause states. None of them does anything when it is called.
#![tactic(auto)]

ghost use Rattle.std.specs.Prelude.{◌≡◌, ℕ, List, None};
ghost use Rattle.words_script.specs.declared.decl.Script.{Script};
ghost use Rattle.rules_machine.specs.Machine.{names_of, trace};
ghost use Rattle.rules_machine.specs.WellFormed.{IsWellFormed};
ghost use Rattle.tool_audit.specs.Breach.{first_breach};
ghost use Rattle.tool_audit.specs.declared.server.NamedServer.{NamedServer};
ghost use Rattle.laws_audit.specs.Calm.{HasNoSetsched};
ghost use Rattle.laws_audit.specs.Traces.{EachServerOf, NamesApart, TraceIsSpelled};

/// Of a well formed script without a setsched step, the trace of every run breaks no rule for servers that are sporadic threads of the
/// script, with their period, budget and greatest number of pending replenishments. Here where names tell its threads apart, and its trace
/// is spelled as one: no number in it is above the greatest. Strict threads are not audited; the script may have them beside.
#[tactic(auto, using(crate::proofs::Traces::none_broken))]
pub fn traces_break_no_rule()
    ensures { (script : Script) → (n : ℕ) → (servers : List NamedServer) → IsWellFormed script → HasNoSetsched script → NamesApart (names_of script) → TraceIsSpelled script n → EachServerOf script servers → first_breach servers (trace script n) ≡ None }
{}
