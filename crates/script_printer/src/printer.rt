//! A printer writes words, those of one call mostly at once.
ghost use Rattle.std.specs.Prelude.{◌≡◌, ◌<◌, ◌≤◌, ◌+◌, ◌∷◌, ◌++◌, [], decimal, false, length, map};
ghost use Rattle.script_lex.specs.Joined.{after_blanks, joined_words};
ghost use Rattle.script_writer.specs.Line.{AreShort, IsShort, line_text, spelled, total_width, width};
ghost use Rattle.script_printer.specs.Puts.{Puts};

use crate::row::{ROOM, have_room, place_line, place_number, place_words};
use itoa::Buffer;
use parts_bytes::{place_bytes, place_word};
use parts_io::Sink;
use script_writer::{Word, word_text};

/// Prints words to a sink until a write fails. No call takes memory.
#[derive(Drop)]
pub struct Printer<'a, K> {
    sink: &'a mut K,
    failed: bool,
}

impl<'a, K: Sink> Printer<'a, K> {
    /// A printer that has printed nothing yet.
    pub fn new(sink: &'a mut K) -> Printer<'a, K>
        ensures same_reference { result.sink.ghost_name ≡ sink.entry.ghost_name }
        ensures fresh { result.failed ≡ false }
        ensures same_sink { result.sink.now ≡ sink.old }
    {
        Printer {
            sink,
            failed: false,
        }
    }

    /// Whether a write of this printer has failed. From then on it writes nothing more.
    pub fn failed(&self) -> bool
        ensures { result ≡ self.now.failed }
    {
        self.failed
    }

    // Writes the bytes at once, unless a write has failed.
    fn put(&mut self, bytes: &[u8])
        ensures { Puts K.text K.faults self.old self.new bytes.now }
    {
        if self.failed {
            return;
        }
        match self.sink.write(bytes) {
            Ok(()) => {}
            Err(_) => self.failed = true,
        }
    }

    /// Prints bytes as they are, as a part of a line or a whole one.
    pub fn text(&mut self, bytes: &[u8])
        ensures { Puts K.text K.faults self.old self.new bytes.now }
    {
        self.put(bytes);
    }

    // Prints a number, a blank and bytes as they are, by writes of their own.
    fn put_numbered(&mut self, number: u64, bytes: &[u8])
        ensures { Puts K.text K.faults self.old self.new (decimal number ++ 32 ∷ bytes.now) }
    {
        self.put_number(number);
        self.put(b" ");
        self.put(bytes);
    }

    /// Prints a number, a blank and bytes as they are: mostly at once.
    pub fn numbered(&mut self, number: u64, bytes: &[u8])
        ensures { Puts K.text K.faults self.old self.new (decimal number ++ 32 ∷ bytes.now) }
    {
        if bytes.len() + 21 > ROOM {
            return self.put_numbered(number, bytes);
        }
        let mut row = [0; ROOM];
        let end = place_number(&mut row, number);
        let end = place_word(&mut row, end, b" ");
        let end = place_bytes(&mut row, end, bytes);
        self.put(&row[..end]);
    }

    // Prints a number.
    fn put_number(&mut self, number: u64)
        ensures text { Puts K.text K.faults self.old self.new (decimal number) }
        ensures short { length (decimal number) ≤ 20 }
    {
        let mut buffer = Buffer::new();
        self.put(buffer.format(number).as_bytes());
    }

    // Prints a word without a blank. The text of most words stands somewhere already.
    fn put_word(&mut self, word: &Word<'_>)
        requires { IsShort word.now }
        ensures text { Puts K.text K.faults self.old self.new (spelled word.now) }
        ensures short { length (spelled word.now) < width word.now }
    {
        match word {
            Word::Keyword(text) => self.put(text),
            Word::Name(text) => self.put(text),
            Word::Number(number) => self.put_number(*number),
            _ => self.put(word_text(word).as_slice()),
        }
    }

    // Prints words, each by writes of its own, with a blank before each.
    fn put_each(&mut self, words: &[Word<'_>])
        requires { AreShort words.now }
        ensures text { Puts K.text K.faults self.old self.new (after_blanks (map spelled words.now)) }
        ensures short { length (after_blanks (map spelled words.now)) ≤ total_width words.now }
    {
        for word in words {
            self.put(b" ");
            self.put_word(word);
        }
    }

    /// Prints more words of a line, with a blank before each.
    pub fn words(&mut self, words: &[Word<'_>])
        requires { AreShort words.now }
        ensures text { Puts K.text K.faults self.old self.new (after_blanks (map spelled words.now)) }
        ensures short { length (after_blanks (map spelled words.now)) ≤ total_width words.now }
    {
        if words.is_empty() || !have_room(words) {
            return self.put_each(words);
        }
        let mut row = [0; ROOM];
        let end = place_words(&mut row, 0, words);
        self.put(&row[..end]);
    }

    // Prints the first words of a line, each by writes of its own.
    fn begin_with_each(&mut self, words: &[Word<'_>])
        requires { AreShort words.now }
        ensures text { Puts K.text K.faults self.old self.new (joined_words (map spelled words.now)) }
        ensures short { length (joined_words (map spelled words.now)) ≤ total_width words.now }
    {
        if let [first, rest @ ..] = words {
            self.put_word(first);
            self.put_each(rest);
        }
    }

    /// Prints the first words of a line, with one blank between them.
    pub fn begin(&mut self, words: &[Word<'_>])
        requires { AreShort words.now }
        ensures text { Puts K.text K.faults self.old self.new (joined_words (map spelled words.now)) }
        ensures short { length (joined_words (map spelled words.now)) ≤ total_width words.now }
    {
        if !have_room(words) {
            return self.begin_with_each(words);
        }
        let mut row = [0; ROOM];
        let end = place_line(&mut row, words);
        self.put(&row[..end]);
    }

    /// Prints the end of a line.
    pub fn end(&mut self)
        ensures { Puts K.text K.faults self.old self.new (10 ∷ []) }
    {
        self.put(b"\n");
    }

    /// Prints a line of these words, with one blank between them.
    pub fn line(&mut self, words: &[Word<'_>])
        requires { AreShort words.now }
        ensures text { Puts K.text K.faults self.old self.new (line_text (map spelled words.now)) }
        ensures short { length (line_text (map spelled words.now)) ≤ total_width words.now + 1 }
    {
        if !have_room(words) {
            self.begin_with_each(words);
            return self.end();
        }
        let mut row = [0; ROOM];
        let end = place_line(&mut row, words);
        let end = place_word(&mut row, end, b"\n");
        self.put(&row[..end]);
    }
}
