//! What is written as one word is read back.
ghost use Rattle.std.specs.Prelude.{◌≡◌, ◌≤◌, ◌^◌, ◌∷◌, [], true, Some, decimal};
ghost use Rattle.words_numbers.specs.Words.{res_text, signal_word};
ghost use Rattle.script_table.specs.Words.{is_number, value_of, signal_of, set_of, answer_of};
ghost use Rattle.script_table.specs.Operands.{operand_at};
ghost use Rattle.script_writer.specs.Words.{operand_word, set_word};
ghost use Rattle.laws_canonical_text.specs.Laws.{IsInScript};

use words_numbers::{Res, SigSet};
use words_script::Operand;

/// The decimal text of a number is a number of that value.
pub fn numbers_read_back(n: u64)
    ensures number { is_number (decimal n) ≡ true }
    ensures value { value_of (decimal n) ≡ n }
{
    let _ = n;
}

/// An operand that a script may have, a number of at most 10^18 or the register, reads back from its word.
pub fn operands_read_back(operand: Operand)
    requires { IsInScript operand }
    ensures { operand_at 0 (operand_word operand ∷ []) ≡ Some operand }
{
    let _ = operand;
}

/// A signal, 0 to 31, reads back from its word.
pub fn signals_read_back(sig: u8)
    requires { sig ≤ 31 }
    ensures { signal_of (signal_word sig) ≡ Some sig }
{
    let _ = sig;
}

/// A set of signals reads back from its word.
pub fn sets_read_back(set: SigSet)
    ensures { set_of (set_word set) ≡ Some set }
{
    let _ = set.bits();
}

/// An answer of a call reads back from its text.
pub fn answers_read_back(res: Res)
    ensures { answer_of (res_text res) ≡ Some res }
{
    let _ = res;
}
