//! The words of events, which stand behind their times, and of reports.
ghost use Rattle.std.specs.Prelude.{◌≡◌, ◌≤◌, ◌<◌, ◌+◌, ◌++◌, ◌∷◌, [], length, codes, decimal, None, Some};
ghost use Rattle.words_trace.specs.Text.{IsNamed, budget_words, event_words, name_at, report_line};
ghost use Rattle.parts_bytes.specs.Placed.{Placed};
ghost use Rattle.parts_tracer.specs.Placed.{blanks_before, words_behind};
ghost use Rattle.words_trace.specs.Calls.{call_word};
ghost use Rattle.words_numbers.specs.Words.{res_text, sig_code_text, signal_word};

use crate::Names;
use crate::call_name::place_call_text;
use crate::outcome_name::{place_code_text, place_result_text};
use crate::place::place_number;
use parts_bytes::{place_byte, place_numeral, place_word};
use words_numbers::{Res, SigCode, Tid};
use words_trace::{BudgetView, CallName, Event, Report};

/// Puts the whole of a call that succeeded, with no value to tell.
#[inline(always)]
pub(crate) fn place_success(
    text: &mut [u8],
    at: usize,
    names: &Names,
    t: Tid,
    call: CallName,
) -> usize
    requires room { at + 236 ≤ length text.old }
    requires named { t < length names.now }
    ensures placed { Placed text.old text.new at
        (codes " return " ++ (name_at names.now t ++ 32 ∷ (call_word call ++ codes " 0 0\n"))) result }
    ensures within { result ≤ at + 64 }
{
    let at = place_call(text, at, names, t, call);
    place_word(text, at, b" 0 0\n")
}

// Puts that a call returned, and the names of its thread and of itself.
#[inline(always)]
fn place_call(text: &mut [u8], at: usize, names: &Names, t: Tid, call: CallName) -> usize
    requires room { at + 236 ≤ length text.old }
    requires named { t < length names.now }
    ensures placed { Placed text.old text.new at
        (codes " return " ++ (name_at names.now t ++ 32 ∷ call_word call)) result }
    ensures within { result ≤ at + 59 }
{
    let at = place_of_thread(text, at, b" return ", names, t);
    let at = place_byte(text, at, b' ');
    place_call_text(text, at, call)
}

/// Puts the words of an event and the line end.
#[inline(always)]
pub(crate) fn place_event<const WAY: usize>(
    text: &mut [u8],
    at: usize,
    e: &Event,
    names: &Names,
) -> usize
    requires room { at + 236 ≤ length text.old }
    requires named { IsNamed names.now e.now }
    ensures placed { Placed text.old text.new at (words_behind (event_words names.now e.now)) result }
    ensures within { result ≤ at + 236 }
{
    match e {
        Event::Dispatch(t, prio) => {
            place_with_number(text, at, b" dispatch ", names, *t, prio.get() as u64)
        }
        Event::Idle => place_word(text, at, b" idle\n"),
        Event::Start(t) => place_alone(text, at, b" start ", names, *t),
        Event::Return(t, call, res, value) => {
            place_return(text, at, names, *t, *call, *res, *value)
        }
        Event::Deliver(t, sig, code, value) => {
            place_delivery(text, at, names, *t, *sig, *code, *value)
        }
        Event::Activate(t, capacity) => {
            place_with_number(text, at, b" activate ", names, *t, *capacity)
        }
        Event::Exhaust(t) => place_alone(text, at, b" exhaust ", names, *t),
        Event::Plan(t, amount, due) => {
            place_with_numbers(text, at, b" plan ", names, *t, *amount, due.get())
        }
        Event::Refill(t, amount, capacity) => {
            place_with_numbers(text, at, b" refill ", names, *t, *amount, *capacity)
        }
        Event::Cancel(t) => place_alone(text, at, b" cancel ", names, *t),
        Event::Exit(t) => place_alone(text, at, b" exit ", names, *t),
        Event::Killed(sig) => place_killed(text, at, *sig),
        Event::End => place_word(text, at, b" end\n"),
    }
}

/// Puts the whole of the event that a call returned.
#[inline(always)]
pub(crate) fn place_return(
    text: &mut [u8],
    at: usize,
    names: &Names,
    t: Tid,
    call: CallName,
    res: Res,
    value: u64,
) -> usize
    requires room { at + 236 ≤ length text.old }
    requires named { t < length names.now }
    ensures placed { Placed text.old text.new at
        (words_behind (codes "return" ∷ name_at names.now t ∷ call_word call ∷ res_text res ∷ decimal value ∷ [])) result }
    ensures within { result ≤ at + 98 }
{
    let at = place_call(text, at, names, t, call);
    let at = place_byte(text, at, b' ');
    let at = place_result_text(text, at, res);
    let at = place_number(text, at, value);
    place_byte(text, at, b'\n')
}

// Puts the whole of the event that a signal was delivered.
#[inline(always)]
fn place_delivery(
    text: &mut [u8],
    at: usize,
    names: &Names,
    t: Tid,
    sig: u8,
    code: SigCode,
    value: u64,
) -> usize
    requires room { at + 236 ≤ length text.old }
    requires named { t < length names.now }
    ensures placed { Placed text.old text.new at
        (words_behind (codes "deliver" ∷ name_at names.now t ∷ signal_word sig ∷ sig_code_text code ∷ decimal value ∷ [])) result }
    ensures within { result ≤ at + 104 }
{
    let at = place_of_thread(text, at, b" deliver ", names, t);
    let at = place_signal(text, at, sig);
    let at = place_byte(text, at, b' ');
    let at = place_code_text(text, at, code);
    let at = place_number(text, at, value);
    place_byte(text, at, b'\n')
}

// Puts the whole of an event that only has a thread.
#[inline(always)]
fn place_alone(text: &mut [u8], at: usize, what: &[u8], names: &Names, t: Tid) -> usize
    requires room { at + 236 ≤ length text.old }
    requires short { length what.now ≤ 10 }
    requires named { t < length names.now }
    ensures placed { Placed text.old text.new at (what.now ++ (name_at names.now t ++ 10 ∷ [])) result }
    ensures within { result ≤ at + 43 }
{
    let at = place_of_thread(text, at, what, names, t);
    place_byte(text, at, b'\n')
}

/// Puts the whole of an event that has a thread and a number.
#[inline(always)]
pub(crate) fn place_with_number(
    text: &mut [u8],
    at: usize,
    what: &[u8],
    names: &Names,
    t: Tid,
    n: u64,
) -> usize
    requires room { at + 236 ≤ length text.old }
    requires short { length what.now ≤ 10 }
    requires named { t < length names.now }
    ensures placed { Placed text.old text.new at
        (what.now ++ (name_at names.now t ++ 32 ∷ decimal n ++ 10 ∷ [])) result }
    ensures within { result ≤ at + 64 }
{
    let at = place_of_thread(text, at, what, names, t);
    let at = place_number(text, at, n);
    place_byte(text, at, b'\n')
}

// Puts the whole of an event that has a thread and two numbers.
#[inline(always)]
fn place_with_numbers(
    text: &mut [u8],
    at: usize,
    what: &[u8],
    names: &Names,
    t: Tid,
    first: u64,
    second: u64,
) -> usize
    requires room { at + 236 ≤ length text.old }
    requires short { length what.now ≤ 10 }
    requires named { t < length names.now }
    ensures placed { Placed text.old text.new at
        (what.now ++ (name_at names.now t ++ 32 ∷ decimal first ++ 32 ∷ decimal second ++ 10 ∷ [])) result }
    ensures within { result ≤ at + 85 }
{
    let at = place_of_thread(text, at, what, names, t);
    let at = place_number(text, at, first);
    let at = place_number(text, at, second);
    place_byte(text, at, b'\n')
}

// Puts what happens, and the name of the thread to which it happens.
#[inline(always)]
fn place_of_thread(text: &mut [u8], at: usize, what: &[u8], names: &Names, t: Tid) -> usize
    requires room { at + 236 ≤ length text.old }
    requires short { length what.now ≤ 10 }
    requires named { t < length names.now }
    ensures placed { Placed text.old text.new at (what.now ++ name_at names.now t) result }
    ensures within { result ≤ at + 42 }
{
    let at = place_word(text, at, what);
    names.name(t).place(text, at)
}

// Puts the whole of the event that a signal ended the process.
#[inline(never)]
fn place_killed(text: &mut [u8], at: usize, sig: u8) -> usize
    requires { at + 236 ≤ length text.old }
    ensures placed { Placed text.old text.new at (words_behind (codes "killed" ∷ signal_word sig ∷ [])) result }
    ensures within { result ≤ at + 236 }
{
    let at = place_word(text, at, b" killed");
    let at = place_signal(text, at, sig);
    place_byte(text, at, b'\n')
}

// Puts a blank and a signal.
#[inline(always)]
fn place_signal(text: &mut [u8], at: usize, sig: u8) -> usize
    requires { at + 24 ≤ length text.old }
    ensures placed { Placed text.old text.new at (32 ∷ signal_word sig) result }
    ensures within { result ≤ at + 24 }
{
    let at = place_word(text, at, b" rt");
    place_numeral(text, at, sig as u64)
}

/// Puts the closing line of a thread.
pub(crate) fn place_report(
    text: &mut [u8],
    at: usize,
    t: Tid,
    report: &Report,
    names: &Names,
) -> usize
    requires room { at + 236 ≤ length text.old }
    requires named { t < length names.now }
    ensures placed { Placed text.old text.new at (report_line names.now t report.now) result }
    ensures within { result ≤ at + 236 }
{
    let at = place_of_thread(text, at, b"thread ", names, t);
    let at = place_word(text, at, b" ticks");
    let at = place_number(text, at, report.ticks);
    match &report.budget {
        Some(budget) => {
            let at = place_budget(text, at, budget);
            place_byte(text, at, b'\n')
        }
        None => place_byte(text, at, b'\n'),
    }
}

// Puts the words on a sporadic server.
fn place_budget(text: &mut [u8], at: usize, budget: &BudgetView) -> usize
    requires { at + 112 ≤ length text.old }
    ensures placed { Placed text.old text.new at (blanks_before (budget_words (Some budget.now))) result }
    ensures within { result ≤ at + 112 }
{
    let at = place_word(text, at, b" high");
    let at = place_number(text, at, budget.high);
    let at = place_word(text, at, b" init");
    let at = place_number(text, at, budget.init);
    let at = place_word(text, at, b" refilled");
    let at = place_number(text, at, budget.refilled);
    let at = place_word(text, at, b" capacity");
    place_number(text, at, budget.capacity)
}
