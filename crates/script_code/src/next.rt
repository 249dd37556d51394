//! What a register may hold, and whether a test holds.
ghost use Rattle.std.specs.Prelude.{◌≡◌};
ghost use Rattle.rules_bodies.specs.Next.{capped, holds};

use words_numbers::Res;

/// The greatest number that a register may hold.
pub const REGISTER_LIMIT: u64 = 2_000_000_000_000_000_000;

/// The value of a register that is to be n.
pub(crate) fn capped(n: u64) -> u64
    ensures { result ≡ capped n }
{
    n.min(REGISTER_LIMIT)
}

/// Whether a test holds after a call with this result.
pub(crate) fn holds(named: Res, equal: bool, last: Res) -> bool
    ensures { result ≡ holds named equal last }
{
    (last == named) == equal
}
