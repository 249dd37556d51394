//! What the word at a place says.
ghost use Rattle.std.specs.Prelude.{◌≡◌, ◌≤◌, ◌^◌, IfSome};
ghost use Rattle.script_table.specs.Ranges.{capped_number_at};
ghost use Rattle.script_table.specs.Operands.{number_in, amount_at, priority_at, moment_at, operand_at, real_at, signal_at, signals_at, answer_at, name_at, named_at, server_of, server_at, fifo_at, rr_at, sporadic_at, strict_at};
ghost use Rattle.words_script.specs.declared.name_kind.NameKind.TheVariants as kind;

use crate::names::NameIndex;
use crate::structure::statement::LineWords;
use crate::{Name, Operand, Policy};
use script_table::{NameKind, answer_of, capped_value, is_register, set_of, signal_of};
use words_numbers::{GREATEST_NUMBER, ObjId, Params, Prio, Res, SigSet, Tid};
use words_script::Moment;

/// A number, or one past the greatest where it is above that.
pub(crate) fn capped_number_at(k: usize, words: &LineWords<'_>) -> u128
    ensures { result ≡ capped_number_at k words.now }
{
    capped_value(words.word(k), GREATEST_NUMBER)
}

pub(crate) fn number_in(low: u64, high: u64, k: usize, words: &LineWords<'_>) -> Option<u64>
    ensures number { result ≡ number_in low high k words.now }
    ensures range { IfSome result (λ n. (low ≤ n) × (n ≤ high)) }
{
    let value = capped_value(words.word(k), high);
    if low as u128 <= value && value <= high as u128 {
        Some(value as u64)
    } else {
        None
    }
}

/// The same of the first word behind the keyword, which most often is a short number and the only one.
#[inline(always)]
pub(crate) fn first_number(low: u64, high: u64, words: &LineWords<'_>) -> Option<u64>
    ensures { result ≡ number_in low high 1 words.now }
{
    match words.only_number() {
        Some(value) if low <= value && value <= high => Some(value),
        _ => number_in(low, high, 1, words),
    }
}

pub(crate) fn amount(k: usize, words: &LineWords<'_>) -> Option<u64>
    ensures { result ≡ amount_at k words.now }
{
    number_in(0, GREATEST_NUMBER, k, words)
}

pub(crate) fn priority(k: usize, words: &LineWords<'_>) -> Option<Prio>
    ensures { result ≡ priority_at k words.now }
{
    Prio::try_new(number_in(1, 255, k, words)? as u8)
}

pub(crate) fn operand(k: usize, words: &LineWords<'_>) -> Option<Operand>
    ensures { result ≡ operand_at k words.now }
{
    if is_register(words.word(k)) {
        return Some(Operand::Reg);
    }
    Some(Operand::Num(amount(k, words)?))
}

/// An absolute time on CLOCK_MONOTONIC.
pub(crate) fn moment(k: usize, words: &LineWords<'_>) -> Option<Moment>
    ensures { result ≡ moment_at k words.now }
{
    Some(Moment::Monotonic(operand(k, words)?))
}

/// The same on CLOCK_REALTIME.
pub(crate) fn real(k: usize, words: &LineWords<'_>) -> Option<Moment>
    ensures { result ≡ real_at k words.now }
{
    Some(Moment::Realtime(operand(k, words)?))
}

pub(crate) fn signal(k: usize, words: &LineWords<'_>) -> Option<u8>
    ensures { result ≡ signal_at k words.now }
{
    signal_of(words.word(k))
}

pub(crate) fn signals(k: usize, words: &LineWords<'_>) -> Option<SigSet>
    ensures { result ≡ signals_at k words.now }
{
    set_of(words.word(k))
}

pub(crate) fn answer(k: usize, words: &LineWords<'_>) -> Option<Res>
    ensures { result ≡ answer_at k words.now }
{
    answer_of(words.word(k))
}

pub(crate) fn name(k: usize, words: &LineWords<'_>) -> Option<Name>
    ensures { result ≡ name_at k words.now }
{
    Name::try_new(words.word(k))
}

pub(crate) fn thread(names: &NameIndex<'_>, k: usize, words: &LineWords<'_>) -> Option<Tid>
    ensures { result ≡ named_at kind.Thread names.now k words.now }
{
    Tid::try_new(names.number_of(NameKind::Thread, words.word(k))?)
}

pub(crate) fn object(
    kind: NameKind,
    names: &NameIndex<'_>,
    k: usize,
    words: &LineWords<'_>,
) -> Option<ObjId>
    ensures { result ≡ named_at kind names.now k words.now }
{
    ObjId::try_new(names.number_of(kind, words.word(k))?)
}

fn server_of(high: Prio, low: Prio, period: u64, budget: u64, max: u64) -> Option<Params>
    requires { (period ≤ 10 ^ 18) × (1 ≤ max) × (max ≤ 16) }
    ensures { result ≡ server_of high low period budget max }
{
    if low < high && (1 <= budget && budget <= period) {
        Params::try_new(high, low, period, budget, max as u8)
    } else {
        None
    }
}

// The parameters of a server, at the words 3 to 7.
fn server(words: &LineWords<'_>) -> Option<Params>
    ensures { result ≡ server_at words.now }
{
    let high = priority(3, words)?;
    let low = priority(4, words)?;
    let period = number_in(0, GREATEST_NUMBER, 5, words)?;
    let budget = amount(6, words)?;
    let max = number_in(1, 16, 7, words)?;
    server_of(high, low, period, budget, max)
}

pub(crate) fn fifo(k: usize, words: &LineWords<'_>) -> Option<Policy>
    ensures { result ≡ fifo_at k words.now }
{
    Some(Policy::Fifo(priority(k, words)?))
}

pub(crate) fn rr(k: usize, words: &LineWords<'_>) -> Option<Policy>
    ensures { result ≡ rr_at k words.now }
{
    Some(Policy::Rr(priority(k, words)?))
}

pub(crate) fn sporadic(words: &LineWords<'_>) -> Option<Policy>
    ensures { result ≡ sporadic_at words.now }
{
    Some(Policy::Sporadic(server(words)?))
}

pub(crate) fn strict(words: &LineWords<'_>) -> Option<Policy>
    ensures { result ≡ strict_at words.now }
{
    Some(Policy::Strict(server(words)?))
}
