//! Texts that are put together in a room of fixed size, as the lines of a report.
//!
//! Proved: `add` and `add_number` append the bytes and the decimal number, where there is room.
#![tactic(auto)]

ghost use Rattle.std.specs.Prelude.{◌≡◌, ◌≤◌, ◌+◌, ◌++◌, length, decimal};

use arrayvec::ArrayVec;
use itoa::Buffer;

/// Adds bytes to a text that has room for them.
pub fn add<const ROOM: usize>(text: &mut ArrayVec<u8, ROOM>, bytes: &[u8])
    requires { length text.old.items + length bytes.now ≤ ROOM }
    ensures { text.new.items ≡ text.old.items ++ bytes.now }
{
    text.try_extend_from_slice(bytes).unwrap();
}

/// Adds a number in decimal, of at most 20 bytes, to a text that has room for as many.
pub fn add_number<const ROOM: usize>(text: &mut ArrayVec<u8, ROOM>, n: u64)
    requires { length text.old.items + 20 ≤ ROOM }
    ensures text { text.new.items ≡ text.old.items ++ decimal n }
    ensures short { length (decimal n) ≤ 20 }
{
    let mut buffer = Buffer::new();
    add(text, buffer.format(n).as_bytes());
}
