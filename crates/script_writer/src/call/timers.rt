//! Lines of calls that set a timer.
ghost use Rattle.std.specs.Prelude.{◌≡◌, ◌∷◌, [], codes, decimal};
ghost use Rattle.script_writer.specs.Line.{line_text};
ghost use Rattle.script_writer.specs.Names.{name_of};
ghost use Rattle.script_writer.specs.Words.{operand_word};
ghost use Rattle.words_script.specs.declared.name_kind.NameKind.TheVariants as name_kind;

use crate::line::Word::{Keyword, Name, Number, Value};
use crate::line::{LineText, line_of};
use crate::names::object;
use words_numbers::ObjId;
use words_script::{Decl, NameKind, Operand};

// With a first expiry after so many ticks.
pub(super) fn settime_rel(decls: &[Decl], timer: ObjId, first: u64, interval: u64) -> LineText
    ensures { result.items ≡ line_text (codes "timer_settime" ∷ name_of decls.now name_kind.Timer timer
        ∷ codes "rel" ∷ decimal first ∷ decimal interval ∷ []) }
{
    line_of(&[
        Keyword(b"timer_settime"),
        Name(object(decls, NameKind::Timer, timer)),
        Keyword(b"rel"),
        Number(first),
        Number(interval),
    ])
}

// With a first expiry at a time.
pub(super) fn settime_abs(decls: &[Decl], timer: ObjId, at: Operand, interval: u64) -> LineText
    ensures { result.items ≡ line_text (codes "timer_settime" ∷ name_of decls.now name_kind.Timer timer
        ∷ codes "abs" ∷ operand_word at ∷ decimal interval ∷ []) }
{
    line_of(&[
        Keyword(b"timer_settime"),
        Name(object(decls, NameKind::Timer, timer)),
        Keyword(b"abs"),
        Value(at),
        Number(interval),
    ])
}
