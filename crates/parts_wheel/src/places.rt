//! The list of a due tick in the wheel.
ghost use Rattle.std.specs.Prelude.{◌≡◌, ◌≢◌, ◌+◌, ◌*◌, ◌<◌, ◌/◌, ◌^◌, true, false};
ghost use Rattle.parts_wheel.specs.Places.{place};
ghost use Rattle.parts_wheel.specs.Slots.{list_for};

/// The list of a due tick, seen from now.
#[inline(always)]
pub(crate) fn list_for(now: u64, due: u64) -> u32
    ensures { result ≡ list_for now due }
{
    if is_near(now, due) {
        return (due % 2048) as u32;
    }
    let (level, slot) = place_in(now / 2048, due / 2048);
    2048 + level * 256 + slot
}

/// The level and the slot of a block of ticks, seen from the block of now: how many more digits to the base of 256 there are than
/// those in which the two agree, and the first digit in which they differ. A digit is eight bits.
#[inline(always)]
fn place_in(now: u64, due: u64) -> (u32, u32)
    requires { (now < 2 ^ 53) × (due < 2 ^ 53) }
    ensures place { result ≡ place 7 now due }
    ensures small { (result.0 < 7) × (result.1 < 256) }
{
    let apart = (now ^ due) | 255;
    let level = (63 - apart.leading_zeros()) / 8;
    (level, ((due >> (8 * level)) % 256) as u32)
}

/// Whether the two are ticks of one block of 2,048.
#[inline(always)]
pub(crate) fn is_near(now: u64, due: u64) -> bool
    ensures near { result ≡ true → due / 2048 ≡ now / 2048 }
    ensures far { result ≡ false → due / 2048 ≢ now / 2048 }
{
    (now ^ due) < 2048
}
