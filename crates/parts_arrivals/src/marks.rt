//! A set of ranks, a bit for each.
ghost use Rattle.std.specs.Prelude.{◌≡◌, ◌≢◌, ◌<◌, if◌then◌else◌, MatchOption};
ghost use Rattle.parts_arrivals.specs.Marks.{IsHighest, NoneIsMarked, ChangesMark};

/// Marks the rank, or takes the mark from it.
pub(crate) fn with_mark(marks: u32, rank: u8, marked: bool) -> u32
    requires { rank < 32 }
    ensures { ChangesMark rank marked marks result }
{
    if marked {
        marks | (1u32 << rank)
    } else {
        marks & !(1u32 << rank)
    }
}

/// The highest rank that is marked. None exactly where none is.
pub(crate) fn highest_mark(marks: u32) -> Option<u8>
    ensures { MatchOption result (NoneIsMarked marks) (λ rank. IsHighest rank marks) }
{
    if marks == 0 {
        return None;
    }
    Some(31 - marks.leading_zeros() as u8)
}
