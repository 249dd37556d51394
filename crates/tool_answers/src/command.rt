//! The words of the command line.
ghost use Rattle.std.specs.Prelude.{◌≡◌, ◌≤◌, ◌^◌, Option, map, string_bytes, IfSome};
ghost use Rattle.script_table.specs.Operands.{map_two};
ghost use Rattle.tool_answers.specs.Command.{command, command_of, long_command_of, short_command_of, number_up_to, limit_of, reads, IsWithinLimit};

use script_table::{capped_value, is_number};
use words_numbers::{GREATEST_NUMBER, Tick};

/// The greatest length of a script's text, in bytes.
pub const SCRIPT_LIMIT: u64 = 1_048_576;

// The greatest length of a script with a trace, and of a set of tasks, in bytes.
const TRACE_LIMIT: u64 = 67_108_864;

// The greatest bound of a response time, in ticks.
const GREATEST_BOUND: u64 = 100_000_000;

/// A command of the tool.
#[derive(Clone, Copy)]
pub enum Command {
    /// `run N`: the trace of a script's run to tick N, at most 10^18.
    Run(Tick),
    /// `show N`: what the lists and objects of a script are at tick N of its run, at most 10^18.
    Show(Tick),
    /// `detail N`: the trace of a script's run to tick N, with the facts that change at each instant; N is at most 10^18.
    Detail(Tick),
    /// `check N`: whether a trace is that of a script's run to tick N, at most 10^18.
    Check(Tick),
    /// `audit`: whether a trace keeps the budgets of its sporadic servers.
    Audit,
    /// `upgrade`: the canonical text of a script as one of version 2.
    Upgrade,
    /// `rta N`: the response times of tasks, up to a bound of N ticks, at most 10^8.
    ResponseTimes(u64),
    /// `gen S`: the canonical text of the generated script of number S, at most 10^18.
    Gen(u64),
    /// `soak S N`: the closing lines of that script's run to tick N; both are at most 10^18.
    Soak(u64, Tick),
}

impl Command {
    /// How many bytes of its source it may take.
    pub fn limit(&self) -> u64
        ensures limit { result ≡ limit_of self.now }
        ensures small { result ≤ 67_108_864 }
    {
        match *self {
            Command::Run(_) => SCRIPT_LIMIT,
            Command::Show(_) => SCRIPT_LIMIT,
            Command::Detail(_) => SCRIPT_LIMIT,
            Command::Check(_) => TRACE_LIMIT,
            Command::Audit => TRACE_LIMIT,
            Command::Upgrade => SCRIPT_LIMIT,
            Command::ResponseTimes(_) => TRACE_LIMIT,
            Command::Gen(_) => 0,
            Command::Soak(_, _) => 0,
        }
    }

    /// Whether it reads its source.
    pub fn reads(&self) -> bool
        ensures { result ≡ reads self.now }
    {
        match *self {
            Command::Run(_) => true,
            Command::Show(_) => true,
            Command::Detail(_) => true,
            Command::Check(_) => true,
            Command::Audit => true,
            Command::Upgrade => true,
            Command::ResponseTimes(_) => true,
            Command::Gen(_) => false,
            Command::Soak(_, _) => false,
        }
    }
}

// The number that a word names, where it is at most so great.
fn number_up_to(most: u64, word: &[u8]) -> Option<u64>
    ensures number { result ≡ number_up_to most word.now }
    ensures limit { IfSome result (λ n. n ≤ most) }
{
    if !is_number(word) {
        return None;
    }
    let value = capped_value(word, most);
    if value > most as u128 {
        return None;
    }
    Some(value as u64)
}

// The tick that a word names, at most 10^18.
fn tick_of(word: &[u8]) -> Option<Tick>
    ensures tick { result ≡ number_up_to (10 ^ 18) word.now }
    ensures limit { IfSome result (λ n. n ≤ 10 ^ 18) }
{
    Tick::try_new(number_up_to(GREATEST_NUMBER, word)?)
}

fn command_of(word: &[u8], number: &[u8]) -> Option<Command>
    ensures command { result ≡ command_of word.now number.now }
    ensures limit { IfSome result IsWithinLimit }
{
    if word == b"run".as_slice() {
        Some(Command::Run(tick_of(number)?))
    } else if word == b"show".as_slice() {
        Some(Command::Show(tick_of(number)?))
    } else if word == b"detail".as_slice() {
        Some(Command::Detail(tick_of(number)?))
    } else if word == b"check".as_slice() {
        Some(Command::Check(tick_of(number)?))
    } else if word == b"rta".as_slice() {
        Some(Command::ResponseTimes(number_up_to(GREATEST_BOUND, number)?))
    } else if word == b"gen".as_slice() {
        Some(Command::Gen(number_up_to(GREATEST_NUMBER, number)?))
    } else {
        None
    }
}

fn short_command_of(word: &[u8]) -> Option<Command>
    ensures command { result ≡ short_command_of word.now }
    ensures limit { IfSome result IsWithinLimit }
{
    if word == b"audit".as_slice() {
        Some(Command::Audit)
    } else if word == b"upgrade".as_slice() {
        Some(Command::Upgrade)
    } else {
        None
    }
}

fn soak(seed: &[u8], horizon: &[u8]) -> Option<Command>
    ensures command { result ≡ map_two Command.Soak (number_up_to (10 ^ 18) seed.now) (number_up_to (10 ^ 18) horizon.now) }
    ensures limit { IfSome result IsWithinLimit }
{
    let seed = number_up_to(GREATEST_NUMBER, seed)?;
    Some(Command::Soak(seed, tick_of(horizon)?))
}

fn long_command_of(word: &[u8], first: &[u8], second: &[u8]) -> Option<Command>
    ensures command { result ≡ long_command_of word.now first.now second.now }
    ensures limit { IfSome result IsWithinLimit }
{
    if word == b"soak".as_slice() {
        soak(first, second)
    } else {
        None
    }
}

/// The command of the words; `None` exactly where they are no command.
pub fn command_of_words(words: &[String]) -> Option<Command>
    ensures command { result ≡ command (map string_bytes words.now) }
    ensures limit { IfSome result IsWithinLimit }
{
    match words {
        [word] => short_command_of(word.as_bytes()),
        [word, number] => command_of(word.as_bytes(), number.as_bytes()),
        [word, first, second] => {
            long_command_of(word.as_bytes(), first.as_bytes(), second.as_bytes())
        }
        _ => None,
    }
}
