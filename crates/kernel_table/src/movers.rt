//! Whose execution priority a call changed.
ghost use Rattle.std.specs.Prelude.{◌≡◌, option_map};
ghost use Rattle.parts_owners.specs.declared.walk.Moved.{Moved};
ghost use Rattle.kernel_table.specs.Movers.{beside};

use parts_owners::Moved;
use words_numbers::Tid;

/// The thread of a change of priority.
pub(crate) fn thread_of(moved: Option<Moved>) -> Option<Tid>
    ensures { result ≡ option_map (λ (m : Moved). m.thread) moved }
{
    moved.map(|m| m.thread)
}

/// The thread, where it is another than t.
pub(crate) fn beside(t: Tid, moved: Option<Tid>) -> Option<Tid>
    ensures { result ≡ beside t moved }
{
    match moved {
        Some(u) if u.get() != t.get() => Some(u),
        _ => None,
    }
}
