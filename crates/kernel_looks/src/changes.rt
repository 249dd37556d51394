//! The line of a fact that changes.
ghost use Rattle.std.specs.Prelude.{◌≡◌, ◌∷◌, ◌++◌, decimal};
ghost use Rattle.script_printer.specs.Puts.{Puts};
ghost use Rattle.kernel_texts.specs.Changed.{behind_subject, changed_line, line_or_subject};

use parts_io::Sink;
use script_printer::Printer;

// What stands behind the subject in a line, without its end; nothing where there is no line.
fn behind_subject<'a>(about: &[u8], line: &'a [u8]) -> &'a [u8]
    ensures { result.now ≡ behind_subject about.now line.now }
{
    let start = (about.len() + 1).min(line.len());
    let end = line.len().saturating_sub(1).max(start);
    &line[start..end]
}

// Prints a number and a line, or the subject alone where there is no line.
fn put_numbered_line<K: Sink>(out: &mut Printer<'_, K>, now: u64, about: &[u8], line: &[u8])
    ensures { Puts K.text K.faults out.old out.new (decimal now ++ 32 ∷ line_or_subject about.now line.now) }
{
    if line.is_empty() {
        out.numbered(now, about);
        out.end();
    } else {
        out.numbered(now, line);
    }
}

/// Prints the line of a fact with the instant in front, where it tells something else than it told before.
pub(crate) fn put_changed_line<K: Sink>(
    out: &mut Printer<'_, K>,
    now: u64,
    about: &[u8],
    before: &[u8],
    line: &[u8],
)
    ensures { Puts K.text K.faults out.old out.new (changed_line now about.now before.now line.now) }
{
    if behind_subject(about, before) == behind_subject(about, line) {
        return;
    }
    put_numbered_line(out, now, about, line);
}
