//! A look goes over facts that tell the same as last at once, as soon as one comes that does not.
ghost use Rattle.std.specs.Prelude.{ℕ, ◌≡◌, ◌≤◌, ◌<◌, ◌+◌, false};
ghost use Rattle.kernel_seen.specs.FactSeen.{may_tell};
ghost use Rattle.kernel_looks.specs.Ahead.{IsStretch};

use crate::desk::Desk;

/// A stretch of facts from the desk's place on that tell the same as last, and how many facts from there on have a place.
#[derive(Clone, Copy)]
pub(crate) struct Stretch {
    pub(crate) same: usize,
    pub(crate) places: usize,
}

impl Stretch {
    /// Of no fact so far.
    pub(crate) fn begin(desk: &Desk) -> Stretch
        ensures stretch { IsStretch result desk.now }
        ensures none { result.same ≡ 0 }
    {
        Stretch {
            same: 0,
            places: desk.places(),
        }
    }

    /// How many facts behind it have a place.
    pub(crate) fn left(&self) -> usize
        requires { self.now.same ≤ self.now.places }
        ensures { self.now.same + result ≡ self.now.places }
    {
        self.places - self.same
    }

    /// With so many facts behind it.
    pub(crate) fn skip(&mut self, count: usize)
        requires { self.old.same + count ≤ self.old.places }
        ensures { self.new ≡ record self.old { same = self.old.same + count } }
    {
        self.same += count;
    }

    /// How many facts behind it told nothing, of so many, as far as that is seen at once.
    #[inline(always)]
    pub(crate) fn quiet_behind(&self, desk: &Desk, most: usize) -> usize
        requires stretch { IsStretch self.now desk.now }
        ensures few { result ≤ most }
        ensures places { self.now.same + result ≤ self.now.places }
        ensures quiet { (i : ℕ) → i < result → may_tell (desk.now.at + self.now.same + i) desk.now.seen.busy ≡ false }
    {
        let most = most.min(self.left());
        desk.seen.quiet_from(desk.at + self.same, most)
    }
}
