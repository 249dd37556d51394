//! What is told of a trace that is not the one that is due.
ghost use Rattle.std.specs.Prelude.{◌≡◌, ◌≤◌, ◌+◌, ◌++◌, [], Some, length, is_some, slice_get, true, IfSome};
ghost use Rattle.std.specs.Option.{option_map};
ghost use Rattle.script_lex.specs.Lines.{lines_of};
ghost use Rattle.parts_tracer.specs.ShortLines.{column_after};
ghost use Rattle.tool_check.specs.Lines.{reading};
ghost use Rattle.tool_check.specs.Comparison.{line_or_nothing, word_of_reading, word_or_nothing, difference_text, comparison};

use crate::divided::line_behind;
use crate::{Form, first_difference, read_line};
use arrayvec::ArrayVec;
use parts_text::{add, add_number};

/// Room for the three lines that tell of a difference.
pub type Difference = ArrayVec<u8, 320>;

fn line_or_nothing(line: Option<&[u8]>) -> &[u8]
    requires { IfSome line (λ l. length l.now ≤ 255) }
    ensures value { result.now ≡ line_or_nothing (option_map (λ l. l.now) line.entry) }
    ensures short { length result.now ≤ 255 }
{
    match line {
        None => b"nothing",
        Some(line) => line,
    }
}

// The word of a form is short.
fn word_of(form: Form) -> &'static [u8]
    ensures value { result.now ≡ word_of_reading (Some (record { form = form; time = 0; name = []; nums = [] })) }
    ensures short { length result.now ≤ 8 }
{
    form.word().as_bytes()
}

fn form_or_text(line: &[u8]) -> &'static [u8]
    ensures value { result.now ≡ word_of_reading (reading line.now) }
    ensures short { length result.now ≤ 8 }
{
    match read_line(line) {
        None => b"text",
        Some(read) => word_of(read.form),
    }
}

fn word_or_nothing(line: Option<&[u8]>) -> &'static [u8]
    ensures value { result.now ≡ word_or_nothing (option_map (λ l. l.now) line.entry) }
    ensures short { length result.now ≤ 8 }
{
    match line {
        None => b"nothing",
        Some(line) => form_or_text(line),
    }
}

// The three lines of a difference.
fn difference_text(number: u64, due: Option<&[u8]>, there: Option<&[u8]>) -> Difference
    requires { IfSome due (λ l. length l.now ≤ 255) }
    ensures { result.items ≡ difference_text number (option_map (λ l. l.now) due.entry) (option_map (λ l. l.now) there.entry) }
{
    let mut text = ArrayVec::new();
    add(&mut text, b"differs ");
    add_number(&mut text, number);
    add(&mut text, b"\nwant ");
    add(&mut text, line_or_nothing(due));
    add(&mut text, b"\nhave ");
    add(&mut text, word_or_nothing(there));
    add(&mut text, b"\n");
    text
}

// The line that has so many lines before it, in a text of short lines.
fn short_line_behind(text: &[u8], lines: u64) -> Option<&[u8]>
    requires { is_some (column_after 0 text.now) ≡ true }
    ensures line { option_map (λ l. l.now) result ≡ slice_get (lines_of text.now) lines }
    ensures short { IfSome result (λ l. length l.now ≤ 255) }
{
    line_behind(text, lines)
}

/// Compares a trace with the one that is due, each of whose lines has at most 256 bytes with its line end. Where they are not equal, three lines tell
/// of the first line that differs: its number, the line that is due there or `nothing`, and of the line that stands there the word of its form, `text`
/// where it is no line of a trace, or `nothing`. `None` comes exactly where they are equal.
pub fn compare(have: &[u8], want: &[u8]) -> Option<Difference>
    requires { is_some (column_after 0 want.now) ≡ true }
    ensures { option_map (λ text. text.items) result ≡ comparison have.now want.now }
{
    let Some(number) = first_difference(have, want) else {
        return None;
    };
    let due = short_line_behind(want, number - 1);
    let there = line_behind(have, number - 1);
    Some(difference_text(number, due, there))
}
