//! The lines of bodies.
ghost use Rattle.std.specs.Prelude.{◌≡◌, ◌∷◌, ◌++◌, []};
ghost use Rattle.words_script.specs.Tree.{block_of};
ghost use Rattle.script_writer.specs.Line.{line_text};
ghost use Rattle.script_writer.specs.Canon.{test_words, loop_words, pop_words, end_words, block_lines, text_of};
ghost use Rattle.std.specs.Option.{option_map};
ghost use Rattle.script_writer.specs.Firsts.{step_words, block_in, closing_words};
ghost use Rattle.script_writer.specs.Writes.{Writes};

use crate::call::call_line;
use crate::line::Word::{Keyword, Name, Number};
use crate::line::{LineText, line_of};
use crate::names::object;
use parts_io::{Failed, Sink};
use words_numbers::Res;
use words_script::{Body, Decl, NameKind, Step};

/// Writes a line at once.
pub(crate) fn write_line<K: Sink>(sink: &mut K, line: LineText) -> Result<(), Failed>
    ensures { Writes K.text K.faults sink.old sink.new result line.items }
{
    sink.write(line.as_slice())
}

/// The line that closes a body, and a block that is no guarded one.
pub(crate) fn end_line() -> LineText
    ensures { result.items ≡ line_text end_words }
{
    line_of(&[Keyword(b"end")])
}

// The line that closes a guarded block.
fn pop_line(run: bool) -> LineText
    ensures { result.items ≡ line_text (pop_words run) }
{
    if run {
        line_of(&[Keyword(b"pop"), Keyword(b"1")])
    } else {
        line_of(&[Keyword(b"pop"), Keyword(b"0")])
    }
}

fn test_line(res: Res, equal: bool) -> LineText
    ensures { result.items ≡ line_text (test_words res equal) }
{
    let answer = Keyword(res.text().as_bytes());
    if equal {
        line_of(&[Keyword(b"if"), answer])
    } else {
        line_of(&[Keyword(b"unless"), answer])
    }
}

fn loop_line(times: Option<u64>) -> LineText
    ensures { result.items ≡ line_text (loop_words times) }
{
    match times {
        Some(n) => line_of(&[Keyword(b"loop"), Number(n)]),
        None => line_of(&[Keyword(b"forever")]),
    }
}

/// The first line of a step, or the only one.
pub(crate) fn step_line(decls: &[Decl], step: &Step) -> LineText
    ensures { result.items ≡ line_text (step_words decls.now step.now) }
{
    match step {
        Step::Run(ticks) => line_of(&[Keyword(b"run"), Number(*ticks)]),
        Step::Make(call) => call_line(decls, call),
        Step::Set(n) => line_of(&[Keyword(b"set"), Number(*n)]),
        Step::Add(n) => line_of(&[Keyword(b"add"), Number(*n)]),
        Step::Take => line_of(&[Keyword(b"take")]),
        Step::Test { res, equal, .. } => test_line(*res, *equal),
        Step::Loop { times, .. } => loop_line(*times),
        Step::Guard { cleanup, .. } => {
            line_of(&[
                Keyword(b"push"),
                Name(object(decls, NameKind::Cleanup, *cleanup)),
            ])
        }
    }
}

/// The line that closes the block of a step.
pub(crate) fn closing_line(step: &Step) -> LineText
    ensures { result.items ≡ line_text (closing_words step.now) }
{
    match step {
        Step::Guard { run, .. } => pop_line(*run),
        _ => end_line(),
    }
}

/// The block of a step, where it has one.
pub(crate) fn block_in(step: &Step) -> Option<&Body>
    ensures { option_map (λ b. b.now) result ≡ block_in step.now }
{
    match step {
        Step::Test { body, .. } => Some(body),
        Step::Loop { body, .. } => Some(body),
        Step::Guard { body, .. } => Some(body),
        _ => None,
    }
}

/// Writes a block between the line that opens it and the line that closes it.
#[cycle(blocks)]
pub(crate) fn write_block<K: Sink>(
    sink: &mut K,
    decls: &[Decl],
    opening: LineText,
    body: &Body,
    closing: LineText,
) -> Result<(), Failed>
    ensures { Writes K.text K.faults sink.old sink.new result
        (opening.items ++ (text_of (block_lines decls.now body.now) ++ closing.items)) }
{
    write_line(sink, opening)?;
    write_body(sink, decls, body)?;
    write_line(sink, closing)
}

// Writes the lines of a step.
#[cycle(blocks)]
fn write_step<K: Sink>(sink: &mut K, decls: &[Decl], step: &Step) -> Result<(), Failed>
    ensures { Writes K.text K.faults sink.old sink.new result
        (text_of (block_lines decls.now (block_of (step.now ∷ [])))) }
{
    let opening = step_line(decls, step);
    match block_in(step) {
        None => write_line(sink, opening),
        Some(body) => write_block(sink, decls, opening, body, closing_line(step)),
    }
}

/// Writes the lines of a body's steps, one write a line.
#[cycle(blocks)]
pub(crate) fn write_body<K: Sink>(sink: &mut K, decls: &[Decl], body: &Body) -> Result<(), Failed>
    ensures { Writes K.text K.faults sink.old sink.new result (text_of (block_lines decls.now body.now)) }
{
    for step in body.steps() {
        write_step(sink, decls, step)?;
    }
    Ok(())
}
