//! The line of a fact, which is begun with the first word that is told.
ghost use Rattle.std.specs.Prelude.{◌≡◌, ◌<◌, ◌≤◌, length, map};
ghost use Rattle.script_lex.specs.Joined.{after_blanks};
ghost use Rattle.script_writer.specs.Line.{AreShort, spelled, total_width};
ghost use Rattle.script_printer.specs.Puts.{Puts};
ghost use Rattle.kernel_texts.specs.Lines.{end_text, more_text};

use parts_io::Sink;
use script_printer::Printer;
use script_writer::Word;

/// Prints more words of a fact, behind its subject where none was printed before.
pub fn put_more<K: Sink>(
    out: &mut Printer<'_, K>,
    is_begun: bool,
    subject: &[Word<'_>],
    words: &[Word<'_>],
)
    requires some { 0 < length subject.now }
    requires subject { AreShort subject.now }
    requires words { AreShort words.now }
    ensures text { Puts K.text K.faults out.old out.new (more_text is_begun (map spelled subject.now) (map spelled words.now)) }
    ensures short { length (after_blanks (map spelled words.now)) ≤ total_width words.now }
{
    if !is_begun {
        out.begin(subject);
    }
    out.words(words);
}

/// Prints the end of a line that was begun.
pub fn put_end<K: Sink>(out: &mut Printer<'_, K>, is_begun: bool)
    ensures { Puts K.text K.faults out.old out.new (end_text is_begun) }
{
    if is_begun {
        out.end();
    }
}
