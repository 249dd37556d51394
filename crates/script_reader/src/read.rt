//! The script of a text.
ghost use Rattle.std.specs.Prelude.{ℕ, ◌≡◌, ◌≤◌, List, map, Ok, length, IfOk, IfErr, MatchResult};
ghost use Rattle.script_lex.specs.Lines.{Ahead};
ghost use Rattle.script_table.specs.Names.{declared};
ghost use Rattle.script_table.specs.Patterns.{Row, rows_of};
ghost use Rattle.script_table.specs.Structure.{IsRising};
ghost use Rattle.script_table.specs.Table.{patterns};
ghost use Rattle.script_table.specs.Read.{read_in, read};
ghost use Rattle.script_reader.specs.Ends.{IsRefusal};
ghost use Rattle.script_reader.specs.Begun.{begun};
ghost use Rattle.script_reader.specs.Declarations.{naming_lines};
ghost use Rattle.script_reader.specs.Readings.{IsReading};

use crate::build::script_of;
use crate::names::declarations::{Naming, check_names, declare_all};
use crate::ranges::check_ranges;
use crate::structure::heading::heading_of;
use crate::structure::lines::{Reading, statements};
use crate::{Script, ScriptEnd};
use script_lex::Lines;
use script_table::{Table, Version, patterns};
use std::alloc::Global;

// How many steps a script may have.
const MOST_STEPS: usize = 65_536;

// The script of lines without a fault of phase 1, of which it is known what they name.
fn script_of_named(
    alloc: Global,
    version: Version,
    reading: &Reading<'_>,
    naming: &Naming<'_, '_>,
) -> Result<Script, ScriptEnd>
    requires rising { IsRising reading.now.last reading.now.statements.items }
    requires rising_names { (last : ℕ) × IsRising last (map (λ s. s.now) naming.now.lines.items) }
    requires declared { naming.now.declared ≡ declared reading.now.statements.items }
    requires lines { map (λ s. s.now) naming.now.lines.items ≡ naming_lines reading.now.statements.items }
    ensures { (rows : List Row) (ahead : Ahead) → IsReading rows (begun version ahead) reading.now → MatchResult result
        (λ s. read_in rows (begun version ahead) ≡ Ok s)
        (λ e. IsRefusal e (read_in rows (begun version ahead))) }
{
    let statements = reading.statements.as_slice();
    check_names(&naming.declared, naming.lines.as_slice())?;
    check_ranges(version, reading.last, statements)?;
    let script = script_of(alloc, version, naming.declared.names(), statements)?;
    Ok(script)
}

// The script of lines by any table of patterns. So many statements have room at first.
fn read_in(
    alloc: Global,
    version: Version,
    table: &Table,
    room: usize,
    lines: Lines<'_>,
) -> Result<Script, ScriptEnd>
    ensures { MatchResult result
        (λ s. read_in (rows_of table.now) (begun version lines.entry) ≡ Ok s)
        (λ e. IsRefusal e (read_in (rows_of table.now) (begun version lines.entry))) }
{
    let reading = statements(alloc, table, room, lines)?;
    let naming = declare_all(alloc, reading.statements.as_slice())?;
    script_of_named(alloc, version, &reading, &naming)
}

/// The script that a text of at most 1,048,576 bytes says.
///
/// `Err(ScriptEnd::Fault(line, kind))` comes exactly where the text is no script: it is the least of all its faults, by phase, then line,
/// then kind. `ScriptEnd::OutOfMemory` may come for any text, and says nothing of it. The time is linear in the length of the text.
pub fn read_script(alloc: Global, text: &[u8]) -> Result<Script, ScriptEnd>
    requires { length text.now ≤ 1_048_576 }
    ensures script { IfOk result (λ s. read patterns text.now ≡ Ok s) }
    ensures refusal { IfErr result (λ e. IsRefusal e (read patterns text.now)) }
{
    match heading_of(alloc, text) {
        Err(end) => Err(end),
        Ok(heading) => {
            // The shortest line that says something is `end`: the room is not moved while the text is read, unless blocks are very many.
            let room = (text.len() / 4 + 1).min(MOST_STEPS);
            read_in(
                alloc,
                heading.version,
                &patterns(heading.version),
                room,
                heading.lines,
            )
        }
    }
}
