//! A line of a trace, as it is read.
ghost use Rattle.std.specs.Prelude.{◌≡◌, ◌≤◌, ◌+◌, ◌∷◌, [], Some, IfSome};
ghost use Rattle.std.specs.Option.{option_map};
ghost use Rattle.arrayvec.specs.ArrayVec.{array_vec_len};
ghost use Rattle.script_table.specs.Words.{signal_of};
ghost use Rattle.tool_check.specs.Form.{numbers_in, parts};
ghost use Rattle.tool_check.specs.Lines.{seen, begun, kept, named, numbered, with_word, with_words, form_among, timed_form, of_form, timed_reading, closing_reading, reading, Reading};
ghost use Rattle.tool_check.specs.Laws.{IsTraceLine};
ghost use Rattle.tool_check.specs.Small.{IsSmallLine};

use crate::Form;
use crate::form::Part;
use crate::words::{Words, is_call, is_code, is_name, number_of};
use arrayvec::ArrayVec;
use script_table::{answer_of, signal_of};

/// What a line of a trace says.
#[derive(Drop)]
pub struct TraceLine<'a> {
    pub form: Form,
    /// The time in ticks; 0 in a closing line.
    pub time: u64,
    /// The name of the line's thread; empty where the form has none.
    pub name: &'a [u8],
    /// The priority of a dispatch, the value of a return, the signal and the value of a delivery, the capacity of an activation,
    /// the amount and the due tick of a plan, the amount and the capacity of a refill, the signal that killed, or the numbers of a
    /// closing line in their order; of any other form none.
    pub nums: ArrayVec<u64, 5>,
}

fn begun<'a>(form: Form, time: u64) -> TraceLine<'a>
    ensures value { seen result ≡ begun form time }
    ensures empty { array_vec_len result.nums ≡ 0 }
{
    TraceLine {
        form,
        time,
        name: b"",
        nums: ArrayVec::new(),
    }
}

fn kept(holds: bool, line: TraceLine<'_>) -> Option<TraceLine<'_>>
    ensures value { option_map (λ l. seen l) result ≡ kept holds (seen line.entry) }
    ensures room { IfSome result (λ l. array_vec_len l.nums ≡ array_vec_len line.entry.nums) }
{
    if holds { Some(line) } else { None }
}

fn named<'a>(word: &'a [u8], mut line: TraceLine<'a>) -> Option<TraceLine<'a>>
    ensures value { option_map (λ l. seen l) result ≡ named word.now (seen line.entry) }
    ensures room { IfSome result (λ l. array_vec_len l.nums ≡ array_vec_len line.entry.nums) }
{
    if is_name(word) {
        line.name = word;
        Some(line)
    } else {
        None
    }
}

fn numbered(number: Option<u64>, mut line: TraceLine<'_>) -> Option<TraceLine<'_>>
    requires { array_vec_len line.nums + 1 ≤ 5 }
    ensures value { option_map (λ l. seen l) result ≡ numbered number (seen line.entry) }
    ensures room { IfSome result (λ l. array_vec_len l.nums ≡ array_vec_len line.entry.nums + 1) }
{
    match number {
        None => None,
        Some(n) => {
            line.nums.push(n);
            Some(line)
        }
    }
}

fn signal_number(word: &[u8]) -> Option<u64>
    ensures { result ≡ signal_of word.now }
{
    match signal_of(word) {
        None => None,
        Some(sig) => Some(sig as u64),
    }
}

// The line with a word in this place.
fn with_word<'a>(part: Part, word: &'a [u8], line: TraceLine<'a>) -> Option<TraceLine<'a>>
    requires { array_vec_len line.nums + numbers_in (part ∷ []) ≤ 5 }
    ensures value { option_map (λ l. seen l) result ≡ with_word part word.now (seen line.entry) }
    ensures room { IfSome result (λ l. array_vec_len l.nums ≡ array_vec_len line.entry.nums + numbers_in (part ∷ [])) }
{
    match part {
        Part::Name => named(word, line),
        Part::Number => numbered(number_of(word), line),
        Part::Signal => numbered(signal_number(word), line),
        Part::Call => kept(is_call(word), line),
        Part::Answer => kept(answer_of(word).is_some(), line),
        Part::Code => kept(is_code(word), line),
        Part::Ticks => kept(word == b"ticks".as_slice(), line),
        Part::High => kept(word == b"high".as_slice(), line),
        Part::Init => kept(word == b"init".as_slice(), line),
        Part::Refilled => kept(word == b"refilled".as_slice(), line),
        Part::Capacity => kept(word == b"capacity".as_slice(), line),
    }
}

// The line with a word in each of these places; `None` exactly where there is none or words are left.
fn with_words<'a>(
    parts: &[Part],
    mut words: Words<'a>,
    line: TraceLine<'a>,
) -> Option<TraceLine<'a>>
    requires { array_vec_len line.nums + numbers_in parts.now ≤ 5 }
    ensures { option_map (λ l. seen l) result ≡ with_words parts.now words.entry (seen line.entry) }
{
    match parts {
        [] => match words.next_word() {
            None => Some(line),
            Some(_) => None,
        },
        [part, rest @ ..] => match words.next_word() {
            None => None,
            Some(word) => match with_word(*part, word, line) {
                None => None,
                Some(more) => with_words(rest, words, more),
            },
        },
    }
}

fn of_form<'a>(form: Form, time: u64, words: Words<'a>) -> Option<TraceLine<'a>>
    ensures { option_map (λ l. seen l) result ≡ with_words (parts form) words.entry (begun form time) }
{
    with_words(form.parts(), words, begun(form, time))
}

static TIMED_FORMS: [Form; 13] = [
    Form::Dispatch,
    Form::Idle,
    Form::Start,
    Form::Return,
    Form::Deliver,
    Form::Activate,
    Form::Exhaust,
    Form::Plan,
    Form::Refill,
    Form::Cancel,
    Form::Exit,
    Form::Killed,
    Form::End,
];

// The first of these forms whose word it is.
fn form_among(forms: &[Form], word: &[u8]) -> Option<Form>
    ensures { result ≡ form_among forms.now word.now }
{
    match forms {
        [] => None,
        [form, rest @ ..] => if word == form.word().as_bytes() {
            Some(*form)
        } else {
            form_among(rest, word)
        },
    }
}

// The form whose word it is, of those that begin with a time.
fn timed_form(word: &[u8]) -> Option<Form>
    ensures { result ≡ timed_form word.now }
{
    form_among(&TIMED_FORMS, word)
}

// Behind the time, where the line begins with one.
fn timed_line<'a>(time: Option<u64>, mut words: Words<'a>) -> Option<TraceLine<'a>>
    ensures { option_map (λ l. seen l) result ≡ timed_reading time words.entry }
{
    match time {
        None => None,
        Some(time) => match words.next_word() {
            None => None,
            Some(word) => match timed_form(word) {
                None => None,
                Some(form) => of_form(form, time, words),
            },
        },
    }
}

// Behind the word `thread`.
fn closing_line(words: Words<'_>) -> Option<TraceLine<'_>>
    ensures { option_map (λ l. seen l) result ≡ closing_reading words.entry }
{
    match of_form(Form::Thread, 0, words.again()) {
        Some(line) => Some(line),
        None => of_form(Form::Budget, 0, words),
    }
}

fn read(line: &[u8]) -> Option<TraceLine<'_>>
    ensures { option_map (λ l. seen l) result ≡ reading line.now }
{
    let mut words = Words::of(line);
    match words.next_word() {
        None => None,
        Some(word) => {
            if word == b"thread".as_slice() {
                closing_line(words)
            } else {
                timed_line(number_of(word), words)
            }
        }
    }
}

/// What a line says, without its line end; `None` exactly where it is no line of a trace. A line of a trace has the words that docs/TRACE.md
/// gives for one of the forms, with one blank between them; its numbers have no leading zeros and are at most 3·10^18, its signals are
/// `rt0` to `rt31`, its call is the first word of a call and its result the text of an answer.
pub fn read_line(line: &[u8]) -> Option<TraceLine<'_>>
    ensures value { option_map (λ l. seen l) result ≡ reading line.now }
    ensures printed { (r : Reading) → IsTraceLine line.now r → option_map (λ l. seen l) result ≡ Some r }
    ensures small { IfSome result (λ l. IsSmallLine (seen l)) }
{
    read(line)
}
