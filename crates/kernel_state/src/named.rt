//! The threads that a settling looks at.
ghost use Rattle.std.specs.Prelude.{◌≡◌, ◌<◌, ◌↔◌, ℕ, IfSome, MatchOption, false, true};
ghost use Rattle.parts_bits.specs.Sets.{HasNoneFrom, HasNoOther, IsFirstFrom, Turns, has};
ghost use Rattle.kernel_state.specs.Members.{TakesIn};

use parts_bits::BitSet;
use words_numbers::Tid;

/// A set of threads, which are at most 256.
#[derive(Drop)]
pub struct Named {
    bits: BitSet,
}

impl Named {
    /// No thread.
    pub(crate) fn none() -> Named
        ensures { (t : ℕ) → has t result.bits ≡ false }
    {
        Named {
            bits: BitSet::empty(),
        }
    }

    pub(crate) fn add(&mut self, t: Tid)
        requires { t < 256 }
        ensures { Turns t true self.old.bits self.new.bits }
    {
        self.bits.add(t.get() as u32);
    }

    /// That thread, where there is one.
    #[inline(always)]
    pub(crate) fn take_in(&mut self, t: &Option<Tid>)
        requires { IfSome t.now (λ u. u < 256) }
        ensures { TakesIn t.now self.old.bits self.new.bits }
    {
        if let Some(u) = t {
            self.add(*u);
        }
    }

    pub(crate) fn remove(&mut self, t: Tid)
        requires { t < 256 }
        ensures { Turns t false self.old.bits self.new.bits }
    {
        self.bits.remove(t.get() as u32);
    }

    /// The first of them from that number on; `None` exactly where there is none.
    pub(crate) fn first_from(&self, from: u16) -> Option<Tid>
        ensures { MatchOption result (HasNoneFrom from self.now.bits) (λ t. IsFirstFrom from self.now.bits t) }
    {
        let number = self.bits.first_from(from as u32)?;
        Tid::try_new(number as u16)
    }

    /// Whether no other is in it.
    pub(crate) fn is_alone(&self, t: Tid) -> bool
        requires { t < 256 }
        ensures { (result ≡ true) ↔ HasNoOther t self.now.bits }
    {
        self.bits.is_alone(t.get() as u32)
    }
}
