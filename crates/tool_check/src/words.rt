//! The words of a trace line.
ghost use Rattle.std.specs.Prelude.{◌≡◌, ◌≤◌, ◌<◌, ◌==◌, ◌∷◌, [], not, length, MatchOption, is_some};
ghost use Rattle.std.specs.List.{prefix_len, list_any};
ghost use Rattle.std.specs.Option.{option_map};
ghost use Rattle.std.specs.Str.{bytes_eq};
ghost use Rattle.words_trace.specs.Calls.{call_word};
ghost use Rattle.words_script.specs.Names.{is_name};
ghost use Rattle.tool_check.specs.Words.{trace_words, words_ahead, is_plain, number_of, is_call, is_code};

use parts_tracer::call_text;
use script_table::{capped_value, is_number};
use std::marker::Model;
use words_script::Name;
use words_trace::CallName;

// The greatest number of a trace.
const GREATEST: u64 = 3_000_000_000_000_000_000;

// How many bytes stand before the first blank.
fn word_len(line: &[u8]) -> usize
    ensures len { result ≡ prefix_len (λ c. not (c == 32)) line.now }
    ensures bound { result ≤ length line.now }
{
    line.iter().take_while(|c| **c != b' ').count()
}

// The first word, and what follows its blank, where there is a blank.
fn first_word(line: &[u8]) -> (&[u8], Option<&[u8]>)
    ensures { trace_words line.now ≡ result.0.now ∷ words_ahead (option_map (λ r. r.now) result.1) }
{
    let len = word_len(line);
    if len < line.len() {
        (&line[..len], Some(&line[len + 1..]))
    } else {
        (&line[..len], None)
    }
}

// The words of a line that are still ahead, with one blank between them. It is seen as their list.
#[derive(Drop)]
pub(crate) struct Words<'a> {
    ahead: Option<&'a [u8]>,
}

impl<'a> Model for Words<'a> {
    ghost use Rattle.std.specs.Prelude.{List, ℕ};
    ghost use Rattle.std.specs.Option.{option_map};
    ghost use Rattle.tool_check.specs.Words.{words_ahead};

    ghost Value = { List (List ℕ) };

    ghost view = { λ w. words_ahead (option_map (λ r. r.now) w.ahead) };
}

impl<'a> Words<'a> {
    pub(crate) fn of(line: &'a [u8]) -> Words<'a>
        ensures { result ≡ trace_words line.now }
    {
        Words { ahead: Some(line) }
    }

    // The next word; `None` exactly after the last one.
    pub(crate) fn next_word(&mut self) -> Option<&'a [u8]>
        ensures { MatchOption result (self.old ≡ []) (λ w. self.old ≡ w.now ∷ self.new) }
    {
        match self.ahead {
            None => None,
            Some(line) => {
                let (word, ahead) = first_word(line);
                self.ahead = ahead;
                Some(word)
            }
        }
    }

    // The same words ahead once more.
    pub(crate) fn again(&self) -> Words<'a>
        ensures { result ≡ self.now }
    {
        Words { ahead: self.ahead }
    }
}

fn is_plain(word: &[u8]) -> bool
    ensures { result ≡ is_plain word.now }
{
    match word {
        [] => false,
        [_] => true,
        [first, ..] => *first != b'0',
    }
}

// The value of digits without leading zeros, at most 3·10^18.
pub(crate) fn number_of(word: &[u8]) -> Option<u64>
    ensures { result ≡ number_of word.now }
{
    let value = capped_value(word, GREATEST);
    if (is_number(word) && is_plain(word)) && value <= GREATEST as u128 {
        Some(value as u64)
    } else {
        None
    }
}

pub(crate) fn is_name(word: &[u8]) -> bool
    ensures { result ≡ is_name word.now }
{
    Name::try_new(word).is_some()
}

static CALLS: [CallName; 43] = [
    CallName::Yield,
    CallName::Create,
    CallName::Join,
    CallName::Cancel,
    CallName::Testcancel,
    CallName::Setcancel,
    CallName::Push,
    CallName::Pop,
    CallName::Exit,
    CallName::Setprio,
    CallName::Setsched,
    CallName::Lock,
    CallName::Timedlock,
    CallName::Trylock,
    CallName::Unlock,
    CallName::Wait,
    CallName::Timedwait,
    CallName::Signal,
    CallName::Broadcast,
    CallName::SemWait,
    CallName::SemTimedwait,
    CallName::SemTrywait,
    CallName::SemGetvalue,
    CallName::SemPost,
    CallName::Nanosleep,
    CallName::ClockNanosleep,
    CallName::Gettime,
    CallName::RealGettime,
    CallName::ClockSettime,
    CallName::TimerSettime,
    CallName::TimerGettime,
    CallName::TimerGetoverrun,
    CallName::Kill,
    CallName::Tkill,
    CallName::Sigqueue,
    CallName::Sigmask,
    CallName::Sigwaitinfo,
    CallName::Sigtimedwait,
    CallName::MqSend,
    CallName::MqTimedsend,
    CallName::MqReceive,
    CallName::MqTimedreceive,
    CallName::MqNotify,
];

// Whether it is the word of one of these calls.
fn is_call_of(calls: &[CallName], word: &[u8]) -> bool
    ensures { result ≡ list_any (λ c. bytes_eq word.now (call_word c)) calls.now }
{
    match calls {
        [] => false,
        [call, rest @ ..] => word == call_text(*call) || is_call_of(rest, word),
    }
}

// Whether it is the first word of a call.
pub(crate) fn is_call(word: &[u8]) -> bool
    ensures { result ≡ is_call word.now }
{
    is_call_of(&CALLS, word)
}

// Whether it is the code of a signal.
pub(crate) fn is_code(word: &[u8]) -> bool
    ensures { result ≡ is_code word.now }
{
    word == b"USER".as_slice()
        || (word == b"QUEUE".as_slice()
            || (word == b"TIMER".as_slice() || word == b"MESGQ".as_slice()))
}
