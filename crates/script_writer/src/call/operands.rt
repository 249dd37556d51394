//! Lines of calls by the number and kind of their operands, at most two.
ghost use Rattle.std.specs.Prelude.{◌≡◌, ◌≤◌, ◌∷◌, [], length, decimal};
ghost use Rattle.script_writer.specs.Line.{line_text};
ghost use Rattle.script_writer.specs.Names.{name_of};
ghost use Rattle.script_writer.specs.Words.{moment_words, operand_word};
ghost use Rattle.words_script.specs.declared.name_kind.NameKind.TheVariants as name_kind;

use crate::line::Word::{Keyword, Name, Number, Value};
use crate::line::{LineText, line_of};
use crate::names::{object, thread};
use words_numbers::{ObjId, Tid};
use words_script::{Decl, Moment, NameKind, Operand};

pub(super) fn bare(word: &[u8]) -> LineText
    requires { length word.now ≤ 16 }
    ensures { result.items ≡ line_text (word.now ∷ []) }
{
    line_of(&[Keyword(word)])
}

pub(super) fn two_keywords(first: &[u8], second: &[u8]) -> LineText
    requires first { length first.now ≤ 16 }
    requires second { length second.now ≤ 16 }
    ensures { result.items ≡ line_text (first.now ∷ second.now ∷ []) }
{
    line_of(&[Keyword(first), Keyword(second)])
}

pub(super) fn with_number(word: &[u8], n: u64) -> LineText
    requires { length word.now ≤ 16 }
    ensures { result.items ≡ line_text (word.now ∷ decimal n ∷ []) }
{
    line_of(&[Keyword(word), Number(n)])
}

pub(super) fn with_operand(word: &[u8], operand: Operand) -> LineText
    requires { length word.now ≤ 16 }
    ensures { result.items ≡ line_text (word.now ∷ operand_word operand ∷ []) }
{
    line_of(&[Keyword(word), Value(operand)])
}

pub(super) fn on_thread(decls: &[Decl], word: &[u8], t: Tid) -> LineText
    requires { length word.now ≤ 16 }
    ensures { result.items ≡ line_text (word.now ∷ name_of decls.now name_kind.Thread t ∷ []) }
{
    line_of(&[Keyword(word), Name(thread(decls, t))])
}

pub(super) fn on_object(decls: &[Decl], word: &[u8], of: NameKind, k: ObjId) -> LineText
    requires { length word.now ≤ 16 }
    ensures { result.items ≡ line_text (word.now ∷ name_of decls.now of k ∷ []) }
{
    line_of(&[Keyword(word), Name(object(decls, of, k))])
}

pub(super) fn with_moment(word: &[u8], at: Moment) -> LineText
    requires { length word.now ≤ 16 }
    ensures { result.items ≡ line_text (word.now ∷ moment_words at) }
{
    match at {
        Moment::Monotonic(time) => line_of(&[Keyword(word), Value(time)]),
        Moment::Realtime(time) => line_of(&[Keyword(word), Value(time), Keyword(b"real")]),
    }
}

pub(super) fn on_object_until<'a>(
    decls: &'a [Decl],
    word: &'a [u8],
    of: NameKind,
    k: ObjId,
    at: Moment,
) -> LineText
    requires { length word.now ≤ 16 }
    ensures { result.items ≡ line_text (word.now ∷ name_of decls.now of k ∷ moment_words at) }
{
    let name = Name(object(decls, of, k));
    match at {
        Moment::Monotonic(time) => line_of(&[Keyword(word), name, Value(time)]),
        Moment::Realtime(time) => line_of(&[Keyword(word), name, Value(time), Keyword(b"real")]),
    }
}
