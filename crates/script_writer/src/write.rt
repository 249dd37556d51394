//! The text of a script.
ghost use Rattle.std.specs.Prelude.{◌≡◌};
ghost use Rattle.parts_io.specs.Bytes.{WritesAll};
ghost use Rattle.parts_io.specs.Causes.{HasCause};
ghost use Rattle.script_writer.specs.Line.{line_text};
ghost use Rattle.script_writer.specs.Canon.{version_words, version_lines, quantum_words, decls_lines, body_lines, text_of, canon};
ghost use Rattle.script_writer.specs.Writes.{Writes};

use crate::body::write_line;
use crate::decl::write_decl;
use crate::line::Word::{Keyword, Number};
use crate::line::{LineText, line_of};
use parts_io::{Failed, Sink};
use words_script::{Decl, Script};

pub(crate) fn quantum_line(quantum: u64) -> LineText
    ensures { result.items ≡ line_text (quantum_words quantum) }
{
    line_of(&[Keyword(b"quantum"), Number(quantum)])
}

pub(crate) fn version_line() -> LineText
    ensures { result.items ≡ line_text version_words }
{
    line_of(&[Keyword(b"version"), Keyword(b"2")])
}

// Writes the line of the version, where it has one.
fn write_version<K: Sink>(sink: &mut K, version: u8) -> Result<(), Failed>
    ensures { Writes K.text K.faults sink.old sink.new result (text_of (version_lines version)) }
{
    if version == 2 {
        write_line(sink, version_line())
    } else {
        Ok(())
    }
}

// Writes the lines of the quantum and of the declarations.
fn write_body<K: Sink>(sink: &mut K, script: &Script) -> Result<(), Failed>
    ensures { Writes K.text K.faults sink.old sink.new result (text_of (body_lines script.now)) }
{
    write_line(sink, quantum_line(script.quantum))?;
    write_decls(sink, script.decls.items())
}

fn write_decls<K: Sink>(sink: &mut K, decls: &[Decl]) -> Result<(), Failed>
    ensures { Writes K.text K.faults sink.old sink.new result (text_of (decls_lines decls.now decls.now)) }
{
    for decl in decls {
        write_decl(sink, decls, decl)?;
    }
    Ok(())
}

/// Writes the canonical text of a script, one write a line.
///
/// `Err` comes only where the sink's count of faults rose in this call, and then a part from the front
/// of the text was appended. It takes no memory.
pub fn write_script<K: Sink>(script: &Script, sink: &mut K) -> Result<(), Failed>
    ensures written { WritesAll (K.text sink.old) (K.text sink.new) result (canon script.now) }
    ensures cause { HasCause (K.faults sink.old) (K.faults sink.new) result }
{
    write_version(sink, script.version)?;
    write_body(sink, script)
}
