//! The text of a line, made of words.
ghost use Rattle.std.specs.Prelude.{◌≡◌, ◌<◌, ◌≤◌, ◌+◌, ◌++◌, ◌∷◌, [], length, map};
ghost use Rattle.script_lex.specs.Joined.{after_blanks};
ghost use Rattle.script_writer.specs.Words.{operand_word, set_word, signals_of, joined_by_commas, listed};
ghost use Rattle.words_numbers.specs.Words.{signal_word};
ghost use Rattle.script_writer.specs.Line.{spelled, width, total_width, line_text, IsShort, AreShort};

use arrayvec::ArrayVec;
use itoa::Buffer;
use parts_text::{add, add_number};
use words_numbers::SigSet;
use words_script::Operand;

/// The text of a line with its end.
pub type LineText = ArrayVec<u8, 256>;

/// A word of a line.
#[derive(Clone, Copy)]
pub enum Word<'a> {
    /// A keyword of at most 16 bytes.
    Keyword(&'a [u8]),
    /// A name of at most 32 bytes.
    Name(&'a [u8]),
    Number(u64),
    /// A number or the register.
    Value(Operand),
    Signal(u8),
    /// A set of signals.
    Signals(SigSet),
}

fn add_operand(line: &mut LineText, operand: Operand)
    requires { length line.old.items + 20 ≤ 256 }
    ensures text { line.new.items ≡ line.old.items ++ operand_word operand }
    ensures bound { length line.new.items ≤ length line.old.items + 20 }
{
    match operand {
        Operand::Num(n) => add_number(line, n),
        Operand::Reg => add(line, b"reg"),
    }
}

fn add_signal(line: &mut LineText, sig: u8)
    requires { length line.old.items + 5 ≤ 256 }
    ensures text { line.new.items ≡ line.old.items ++ signal_word sig }
    ensures bound { length line.new.items ≤ length line.old.items + 5 }
{
    add(line, b"rt");
    let mut buffer = Buffer::new();
    add(line, buffer.format(sig).as_bytes());
}

fn add_signals(line: &mut LineText, set: SigSet)
    requires { length line.old.items + 192 ≤ 256 }
    ensures text { line.new.items ≡ line.old.items ++ set_word set }
    ensures bound { length line.new.items ≤ length line.old.items + 192 }
{
    match set.bits() {
        u32::MAX => add(line, b"all"),
        0 => add(line, b"none"),
        _ => add_each_signal(line, set),
    }
}

// A signal of a list, with a comma before it unless it is the first.
fn add_listed(line: &mut LineText, sig: u8, is_first: bool)
    requires { length line.old.items + 6 ≤ 256 }
    ensures text { line.new.items ≡ line.old.items ++ listed is_first (signal_word sig) }
    ensures bound { length line.new.items ≤ length line.old.items + 6 }
{
    if !is_first {
        add(line, b",");
    }
    add_signal(line, sig);
}

// The signals of a set, rising, with commas between them.
fn add_each_signal(line: &mut LineText, set: SigSet)
    requires { length line.old.items + 192 ≤ 256 }
    ensures text { line.new.items ≡ line.old.items ++ joined_by_commas (map signal_word (signals_of set)) }
    ensures bound { length line.new.items ≤ length line.old.items + 192 }
{
    let mut is_first = true;
    for sig in 0..32u8 {
        if set.contains(sig) {
            add_listed(line, sig, is_first);
            is_first = false;
        }
    }
}

fn add_word(line: &mut LineText, word: &Word<'_>)
    requires room { length line.old.items + width word.now ≤ 256 }
    requires short { IsShort word.now }
    ensures text { line.new.items ≡ line.old.items ++ spelled word.now }
    ensures bound { length line.new.items + 1 ≤ length line.old.items + width word.now }
{
    match word {
        Word::Keyword(bytes) => add(line, bytes),
        Word::Name(bytes) => add(line, bytes),
        Word::Number(n) => add_number(line, *n),
        Word::Value(operand) => add_operand(line, *operand),
        Word::Signal(sig) => add_signal(line, *sig),
        Word::Signals(set) => add_signals(line, *set),
    }
}

/// The text of a word.
pub fn word_text(word: &Word<'_>) -> LineText
    requires { IsShort word.now }
    ensures text { result.items ≡ spelled word.now }
    ensures short { length (spelled word.now) < width word.now }
{
    let mut text = ArrayVec::new();
    add_word(&mut text, word);
    text
}

// The words, with a blank before each.
fn add_words(line: &mut LineText, words: &[Word<'_>])
    requires room { length line.old.items + total_width words.now ≤ 255 }
    requires short { AreShort words.now }
    ensures text { line.new.items ≡ line.old.items ++ after_blanks (map spelled words.now) }
    ensures bound { length line.new.items ≤ 255 }
{
    for word in words {
        add(line, b" ");
        add_word(line, word);
    }
}

/// The line of these words, with one blank between them.
pub(crate) fn line_of(words: &[Word<'_>]) -> LineText
    requires room { total_width words.now ≤ 256 }
    requires short { AreShort words.now }
    ensures { result.items ≡ line_text (map spelled words.now) }
{
    let mut line = ArrayVec::new();
    if let [first, rest @ ..] = words {
        add_word(&mut line, first);
        add_words(&mut line, rest);
    }
    add(&mut line, b"\n");
    line
}
