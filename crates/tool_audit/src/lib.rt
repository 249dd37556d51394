//! The audit of a trace against the rules of budgets: whether the lines of a trace keep the budgets of its sporadic servers.
//!
//! What a rule is stands in `specs/`, counted over all lines of a trace. [`Audit`] keeps a few numbers for each server in place of the lines. Only
//! [`Audit::open`] takes memory. The functions below stand for laws, which their clauses state, and do nothing when they are called.
//!
//! Proved: `Audit::open` reads the servers of a head, or names its least fault; `line` and `finish` give the least rule that is broken, counted over
//! all lines that were taken in; `first_breach` is that of the definition; and where no line breaks a rule the law of the budget holds of the lines.
#![tactic(auto)]

ghost use Rattle.std.specs.Prelude.{◌≡◌, ℕ, List, None, map};
ghost use Rattle.script_lex.specs.Lines.{lines_of};
ghost use Rattle.tool_check.specs.Lines.{reading};
ghost use Rattle.tool_audit.specs.Breach.{first_breach};
ghost use Rattle.tool_audit.specs.Law.{KeepsLaw};
ghost use Rattle.tool_audit.specs.Server.{NamedServer};
ghost use Rattle.tool_audit.specs.Watch.{begun, watch_breach};

mod audit;
mod breach;
mod end;
mod fault;
mod heads;
mod replay;
mod saying;
mod server;
mod statement;
mod watched;

pub use audit::Audit;
pub use breach::Breach;
pub use end::AuditEnd;
pub use fault::HeadFault;
pub use replay::{Activation, Planned};
pub use server::{Limits, NamedServer};

/// Where no line of a trace breaks a rule for these servers, the law of the budget holds of its lines for each of them.
#[tactic(auto, using(crate::proofs::Accepted::accepted_keeps_law))]
pub fn accepted_traces_keep_the_law()
    ensures { (servers : List NamedServer) → (trace : List ℕ) → first_breach servers trace ≡ None → KeepsLaw servers trace }
{}

/// The first breach of a trace, counted over all its lines, is what is found from an account of each server, line by line: the same line,
/// and the same least rule.
#[tactic(auto, using(crate::proofs::ClosingTimes::first_breach_watched))]
pub fn first_breach_is_found()
    ensures { (servers : List NamedServer) → (trace : List ℕ) → first_breach servers trace ≡ watch_breach (begun servers) 1 (map reading (lines_of trace)) }
{}
