//! Lines of calls on message queues.
ghost use Rattle.std.specs.Prelude.{◌≡◌, ◌∷◌, [], codes, decimal};
ghost use Rattle.script_writer.specs.Line.{line_text};
ghost use Rattle.script_writer.specs.Names.{name_of};
ghost use Rattle.script_writer.specs.Words.{moment_words, operand_word};
ghost use Rattle.words_numbers.specs.Words.{signal_word};
ghost use Rattle.words_script.specs.declared.name_kind.NameKind.TheVariants as name_kind;

use crate::line::Word::{Keyword, Name, Number, Signal, Value};
use crate::line::{LineText, line_of};
use crate::names::object;
use words_numbers::ObjId;
use words_script::{Decl, Moment, NameKind, Operand};

pub(super) fn mq_send(decls: &[Decl], queue: ObjId, len: u32, prio: u8, value: Operand) -> LineText
    ensures { result.items ≡ line_text (codes "mq_send" ∷ name_of decls.now name_kind.Queue queue
        ∷ decimal len ∷ decimal prio ∷ operand_word value ∷ []) }
{
    line_of(&[
        Keyword(b"mq_send"),
        Name(object(decls, NameKind::Queue, queue)),
        Number(u64::from(len)),
        Number(u64::from(prio)),
        Value(value),
    ])
}

pub(super) fn mq_timedsend(
    decls: &[Decl],
    queue: ObjId,
    len: u32,
    prio: u8,
    value: Operand,
    at: Moment,
) -> LineText
    ensures { result.items ≡ line_text (codes "mq_timedsend" ∷ name_of decls.now name_kind.Queue queue
        ∷ decimal len ∷ decimal prio ∷ operand_word value ∷ moment_words at) }
{
    let word = Keyword(b"mq_timedsend");
    let name = Name(object(decls, NameKind::Queue, queue));
    let len = Number(u64::from(len));
    let prio = Number(u64::from(prio));
    match at {
        Moment::Monotonic(time) => line_of(&[word, name, len, prio, Value(value), Value(time)]),
        Moment::Realtime(time) => line_of(&[
            word,
            name,
            len,
            prio,
            Value(value),
            Value(time),
            Keyword(b"real"),
        ]),
    }
}

pub(super) fn mq_notify(decls: &[Decl], queue: ObjId, sig: u8, value: Operand) -> LineText
    ensures { result.items ≡ line_text (codes "mq_notify" ∷ name_of decls.now name_kind.Queue queue
        ∷ signal_word sig ∷ operand_word value ∷ []) }
{
    line_of(&[
        Keyword(b"mq_notify"),
        Name(object(decls, NameKind::Queue, queue)),
        Signal(sig),
        Value(value),
    ])
}
