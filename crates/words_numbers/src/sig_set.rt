//! Sets of signals.
ghost use Rattle.std.specs.Prelude.{◌≡◌, ◌≤◌, ◌<◌, ◌^◌, IfSome};
ghost use Rattle.words_numbers.specs.Signals.{has_signal, with_signal, without_signal, lowest_signal};

use std::marker::Model;

/// A set of the realtime signals rt0 to rt31, a bit for each. Contracts see it as the number of its bits.
#[derive(Clone, Copy, Debug, PartialEq, Eq)]
pub struct SigSet {
    bits: u32,
}

impl Model for SigSet {
    ghost use Rattle.std.specs.Prelude.{ℕ};

    ghost Value = { ℕ };

    ghost view = { λ s. s.bits };

    ghost inverse = { λ n. record { bits = n } };
}

impl SigSet {
    /// The set of the signals whose bits are set, the least bit standing for rt0.
    pub fn new(bits: u32) -> SigSet
        ensures { result ≡ bits }
    {
        SigSet { bits }
    }

    /// A bit for each signal, the least standing for rt0.
    pub fn bits(self) -> u32
        ensures { result ≡ self }
    {
        self.bits
    }

    /// Whether the signal, 0 to 31, is in the set.
    pub fn contains(self, sig: u8) -> bool
        requires { sig ≤ 31 }
        ensures { result ≡ has_signal self sig }
    {
        (self.bits >> sig) & 1 == 1
    }

    /// The set with the signal, 0 to 31, in it.
    pub fn insert(self, sig: u8) -> SigSet
        requires { sig ≤ 31 }
        ensures { result ≡ with_signal self sig }
    {
        SigSet {
            bits: self.bits | (1u32 << sig),
        }
    }

    /// The set without the signal, 0 to 31.
    pub fn remove(self, sig: u8) -> SigSet
        requires { sig ≤ 31 }
        ensures { result ≡ without_signal self sig }
    {
        SigSet {
            bits: self.bits & (u32::MAX - (1u32 << sig)),
        }
    }

    /// The least signal of the set; `None` exactly for the empty set.
    pub fn lowest(self) -> Option<u8>
        ensures lowest { result ≡ lowest_signal self }
        ensures range { IfSome result (λ sig. sig ≤ 31) }
    {
        (0u8..32).find(|sig| self.contains(*sig))
    }
}
