//! Lines of waits for a condition.
ghost use Rattle.std.specs.Prelude.{◌≡◌, ◌∷◌, [], codes};
ghost use Rattle.script_writer.specs.Line.{line_text};
ghost use Rattle.script_writer.specs.Names.{name_of};
ghost use Rattle.script_writer.specs.Words.{moment_words};
ghost use Rattle.words_script.specs.declared.name_kind.NameKind.TheVariants as name_kind;

use crate::line::Word::{Keyword, Name, Value};
use crate::line::{LineText, line_of};
use crate::names::object;
use words_numbers::ObjId;
use words_script::{Decl, Moment, NameKind};

pub(super) fn wait(decls: &[Decl], cond: ObjId, mutex: ObjId) -> LineText
    ensures { result.items ≡ line_text (codes "wait" ∷ name_of decls.now name_kind.Cond cond
        ∷ name_of decls.now name_kind.Mutex mutex ∷ []) }
{
    let cond = Name(object(decls, NameKind::Cond, cond));
    line_of(&[
        Keyword(b"wait"),
        cond,
        Name(object(decls, NameKind::Mutex, mutex)),
    ])
}

pub(super) fn timedwait(decls: &[Decl], cond: ObjId, mutex: ObjId, at: Moment) -> LineText
    ensures { result.items ≡ line_text (codes "timedwait" ∷ name_of decls.now name_kind.Cond cond
        ∷ name_of decls.now name_kind.Mutex mutex ∷ moment_words at) }
{
    let cond = Name(object(decls, NameKind::Cond, cond));
    let mutex = Name(object(decls, NameKind::Mutex, mutex));
    match at {
        Moment::Monotonic(time) => line_of(&[Keyword(b"timedwait"), cond, mutex, Value(time)]),
        Moment::Realtime(time) => line_of(&[
            Keyword(b"timedwait"),
            cond,
            mutex,
            Value(time),
            Keyword(b"real"),
        ]),
    }
}
