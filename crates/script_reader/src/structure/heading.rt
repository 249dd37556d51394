//! Where what a text says begins, and its version.
ghost use Rattle.std.specs.Prelude.{◌≡◌, ◌≤◌, ◌+◌, ◌∷◌, Ok, IfOk, MatchResult, length, map, true};
ghost use Rattle.script_lex.specs.Lines.{lines_of};
ghost use Rattle.script_lex.specs.Words.{before_comment, has_bad_byte};
ghost use Rattle.script_table.specs.Heading.{is_two, begins, by_version, by_words, heading, printed};
ghost use Rattle.script_reader.specs.Begun.{begun};
ghost use Rattle.script_reader.specs.Ends.{EndsHeading};

use crate::ScriptEnd;
use script_lex::{Line, Lines, Words};
use script_table::{FaultKind, Version};
use std::alloc::{AllocError, Global};

/// The version of a text, and the lines that say something by its patterns.
#[derive(Drop)]
pub(crate) struct Heading<'a> {
    pub version: Version,
    pub lines: Lines<'a>,
}

fn begin<'a>(version: Version, lines: Lines<'a>) -> Heading<'a>
    ensures { (result.version ≡ version) × (result.lines ≡ lines.entry) }
{
    Heading { version, lines }
}

// Whether these words are the one word `2`.
fn is_two(mut words: Words<'_>) -> bool
    ensures { result ≡ is_two words.entry.words }
{
    match words.next_word() {
        None => false,
        Some(word) => match words.next_word() {
            None => word.bytes == b"2".as_slice(),
            Some(_) => false,
        },
    }
}

// Where the line of a version says it right: `words` are those behind its first, `rest` the lines behind it.
fn by_version<'a>(
    line: &Line<'a>,
    words: Words<'_>,
    rest: Lines<'a>,
) -> Result<Heading<'a>, ScriptEnd>
    requires { rest.number ≡ line.now.number + 1 }
    ensures { MatchResult result
        (λ h. by_version line.now.number line.now.bytes.now words.entry.words rest.entry.lines ≡ Ok (begun h.version h.lines))
        (λ e. EndsHeading e (by_version line.now.number line.now.bytes.now words.entry.words rest.entry.lines)) }
{
    if !is_two(words) {
        return Err(ScriptEnd::Fault(line.number, FaultKind::BadVersion));
    }
    if line.has_bad_byte() {
        return Err(ScriptEnd::Fault(line.number, FaultKind::BadByte));
    }
    Ok(begin(Version::Two, rest))
}

// Where a line with words begins with this one: `lines` begin with it, `words` follow in it, and `rest` are the lines behind it.
fn by_first<'a>(
    line: &Line<'a>,
    first: &[u8],
    words: Words<'_>,
    lines: Lines<'a>,
    rest: Lines<'a>,
) -> Result<Heading<'a>, ScriptEnd>
    requires lines { lines.lines ≡ line.now.bytes.now ∷ rest.lines }
    requires number { (lines.number ≡ line.now.number) × (rest.number ≡ line.now.number + 1) }
    ensures { MatchResult result
        (λ h. by_words line.now.number line.now.bytes.now (first.now ∷ words.entry.words) rest.entry.lines (heading rest.entry.number rest.entry.lines) ≡ Ok (begun h.version h.lines))
        (λ e. EndsHeading e (by_words line.now.number line.now.bytes.now (first.now ∷ words.entry.words) rest.entry.lines (heading rest.entry.number rest.entry.lines))) }
{
    if first == b"version".as_slice() {
        by_version(line, words, rest)
    } else {
        Ok(begin(Version::One, lines))
    }
}

fn printed(byte: u8) -> u8
    ensures { result ≡ printed byte }
{
    if byte == b'\t' || (b' ' <= byte && byte <= b'~') {
        byte
    } else {
        b' '
    }
}

// What stands before a line's comment, with a blank in place of each byte that no line may have.
fn printed_bytes(alloc: Global, line: &[u8]) -> Result<Vec<u8>, AllocError>
    ensures { IfOk result (λ v. v.items ≡ map printed (before_comment line.now)) }
{
    let mut bytes = Vec::new(alloc);
    for byte in line {
        if *byte == b'#' {
            return Ok(bytes);
        }
        bytes.push(printed(*byte))?;
    }
    Ok(bytes)
}

// Where a line with a bad byte is the next: `lines` begin with it, and `rest` are the lines behind it.
#[inline(never)]
fn by_bad_line<'a>(
    alloc: Global,
    line: &Line<'a>,
    lines: Lines<'a>,
    rest: Lines<'a>,
) -> Result<Heading<'a>, ScriptEnd>
    requires lines { lines.lines ≡ line.now.bytes.now ∷ rest.lines }
    requires number { (lines.number ≡ line.now.number) × (rest.number ≡ line.now.number + 1) }
    requires bad { has_bad_byte line.now.bytes.now ≡ true }
    ensures { MatchResult result
        (λ h. heading lines.entry.number lines.entry.lines ≡ Ok (begun h.version h.lines))
        (λ e. EndsHeading e (heading lines.entry.number lines.entry.lines)) }
{
    let bytes = printed_bytes(alloc, line.bytes)?;
    let mut words = Words::in_bytes(bytes.as_slice());
    match words.next_word() {
        None => Err(ScriptEnd::Fault(line.number, FaultKind::BadByte)),
        Some(first) => by_first(line, first.bytes, words, lines, rest),
    }
}

/// Where what a text says begins. A fault that is answered is the least of the text.
pub(crate) fn heading_of(alloc: Global, text: &[u8]) -> Result<Heading<'_>, ScriptEnd>
    requires { length text.now ≤ 67_108_864 }
    ensures { MatchResult result (λ h. heading 1 (lines_of text.now) ≡ Ok (begun h.version h.lines)) (λ e. EndsHeading e (heading 1 (lines_of text.now))) }
{
    let mut lines = Lines::new(text);
    let mut rest = lines.again();
    while let Some(line) = rest.next_line() {
        if line.has_bad_byte() {
            return by_bad_line(alloc, &line, lines, rest);
        }
        let mut words = line.words();
        if let Some(first) = words.next_word() {
            return by_first(&line, first.bytes, words, lines, rest);
        }
        lines = rest.again();
    }
    Ok(begin(Version::One, lines))
}
