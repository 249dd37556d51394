//! Phase 3: ranges and limits, and the least fault of them.
mod tally;

ghost use Rattle.std.specs.Prelude.{◌≡◌, ◌≤◌, ◌<◌, ◌^◌, ◌∷◌, ◌++◌, ◌&&◌, [], None, Some, MatchResult};
ghost use Rattle.std.specs.Option.{option_map};
ghost use Rattle.script_table.specs.Faults.{least, least_kind, when};
ghost use Rattle.script_table.specs.Structure.{IsRising};
ghost use Rattle.script_table.specs.Ranges.{sets_server, is_server, server_faults, is_too_many, range_faults, phase_three, no_tally};
ghost use Rattle.script_table.specs.Versions.{most_of};
ghost use Rattle.script_reader.specs.Ends.{answered};

use crate::ScriptEnd;
use crate::operands::capped_number_at;
use crate::structure::statement::{LineWords, Statement};
use script_table::{BodyForm, CallForm, FaultKind, Form, ThreadCall, Version, lesser_first};
use tally::Tally;

fn sets_server(form: Form) -> bool
    ensures { result ≡ sets_server form }
{
    match form {
        Form::Body(BodyForm::SporadicAt) => true,
        Form::Body(BodyForm::SporadicDormant) => true,
        Form::Body(BodyForm::StrictAt) => true,
        Form::Body(BodyForm::StrictDormant) => true,
        Form::Call(CallForm::Thread(ThreadCall::SetschedSporadic)) => true,
        Form::Call(CallForm::Thread(ThreadCall::SetschedStrict)) => true,
        _ => false,
    }
}

// Whether the parameters of a server fit one another.
fn is_server(words: &LineWords<'_>) -> bool
    ensures { result ≡ is_server words.now }
{
    let high = capped_number_at(3, words);
    let low = capped_number_at(4, words);
    let period = capped_number_at(5, words);
    let budget = capped_number_at(6, words);
    let max = capped_number_at(7, words);
    (1 <= budget && budget <= period) && ((1 <= max && max <= 16) && low < high)
}

fn server_fault(form: Form, words: &LineWords<'_>) -> Option<FaultKind>
    ensures { result ≡ least_kind (server_faults form words.now) }
{
    if sets_server(form) && !is_server(words) {
        Some(FaultKind::ServerRange)
    } else {
        None
    }
}

fn many_fault(tally: &Tally, form: Form) -> Option<FaultKind>
    ensures { result ≡ least_kind (when (is_too_many tally.now form) FaultKind.TooMany) }
{
    if tally.is_too_many(form) {
        Some(FaultKind::TooMany)
    } else {
        None
    }
}

fn statement_fault(tally: &Tally, s: &Statement<'_>) -> Option<FaultKind>
    ensures { result ≡ least_kind (range_faults tally.now s.now) }
{
    lesser_first(
        s.range_fault(),
        lesser_first(
            server_fault(s.form(), &s.words()),
            many_fault(tally, s.form()),
        ),
    )
}

/// The least fault of phase 3 in a text of this version; `last` is the number of the line behind the last.
#[inline(never)]
pub(crate) fn check_ranges(
    version: Version,
    last: u32,
    statements: &[Statement<'_>],
) -> Result<(), ScriptEnd>
    requires { IsRising last statements.now }
    ensures { MatchResult result (λ _. least (phase_three last (no_tally (most_of version)) statements.now) ≡ None)
        (λ e. option_map answered (least (phase_three last (no_tally (most_of version)) statements.now)) ≡ Some e) }
{
    let mut tally = Tally::new(version);
    for s in statements {
        tally.add(s.form());
        if let Some(kind) = statement_fault(&tally, s) {
            return Err(ScriptEnd::Fault(s.line(), kind));
        }
    }
    if tally.has_no_thread() {
        return Err(ScriptEnd::Fault(last, FaultKind::NoThread));
    }
    Ok(())
}
