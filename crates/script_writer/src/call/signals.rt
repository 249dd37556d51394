//! Lines of calls on signals.
ghost use Rattle.std.specs.Prelude.{◌≡◌, ◌≤◌, ◌∷◌, [], length, codes, decimal};
ghost use Rattle.script_writer.specs.Line.{line_text};
ghost use Rattle.script_writer.specs.Names.{name_of};
ghost use Rattle.script_writer.specs.Words.{operand_word, set_word};
ghost use Rattle.words_numbers.specs.Words.{signal_word};
ghost use Rattle.words_script.specs.declared.name_kind.NameKind.TheVariants as name_kind;

use crate::line::Word::{Keyword, Name, Number, Signal, Signals, Value};
use crate::line::{LineText, line_of};
use crate::names::thread;
use words_numbers::{SigSet, Tid};
use words_script::{Decl, Operand};

pub(super) fn kill(sig: u8) -> LineText
    ensures { result.items ≡ line_text (codes "kill" ∷ signal_word sig ∷ []) }
{
    line_of(&[Keyword(b"kill"), Signal(sig)])
}

pub(super) fn tkill(decls: &[Decl], t: Tid, sig: u8) -> LineText
    ensures { result.items ≡ line_text (codes "tkill" ∷ name_of decls.now name_kind.Thread t ∷ signal_word sig ∷ []) }
{
    line_of(&[Keyword(b"tkill"), Name(thread(decls, t)), Signal(sig)])
}

pub(super) fn sigqueue(sig: u8, value: Operand) -> LineText
    ensures { result.items ≡ line_text (codes "sigqueue" ∷ signal_word sig ∷ operand_word value ∷ []) }
{
    line_of(&[Keyword(b"sigqueue"), Signal(sig), Value(value)])
}

pub(super) fn sigmask(how: &[u8], set: SigSet) -> LineText
    requires { length how.now ≤ 16 }
    ensures { result.items ≡ line_text (codes "sigmask" ∷ how.now ∷ set_word set ∷ []) }
{
    line_of(&[Keyword(b"sigmask"), Keyword(how), Signals(set)])
}

pub(super) fn sigwaitinfo(set: SigSet) -> LineText
    ensures { result.items ≡ line_text (codes "sigwaitinfo" ∷ set_word set ∷ []) }
{
    line_of(&[Keyword(b"sigwaitinfo"), Signals(set)])
}

pub(super) fn sigtimedwait(set: SigSet, ticks: u64) -> LineText
    ensures { result.items ≡ line_text (codes "sigtimedwait" ∷ set_word set ∷ decimal ticks ∷ []) }
{
    line_of(&[Keyword(b"sigtimedwait"), Signals(set), Number(ticks)])
}
