//! A number put at a place of a line.
ghost use Rattle.std.specs.Prelude.{◌≡◌, ◌+◌, ◌≤◌, ◌∷◌, length, decimal};
ghost use Rattle.parts_bytes.specs.Placed.{Placed};

use parts_bytes::{place_byte, place_numeral};

/// A blank and a number.
#[inline(always)]
pub(crate) fn place_number(buf: &mut [u8], at: usize, n: u64) -> usize
    requires { at + 21 ≤ length buf.old }
    ensures placed { Placed buf.old buf.new at (32 ∷ decimal n) result }
    ensures within { result ≤ at + 21 }
{
    let at = place_byte(buf, at, b' ');
    place_numeral(buf, at, n)
}
