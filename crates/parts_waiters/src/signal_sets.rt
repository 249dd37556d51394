//! The signals that threads wait for.
ghost use Rattle.std.specs.Prelude.{◌≡◌, ◌<◌, ℕ, List, length, slice_index_or};

use words_numbers::{SigSet, Tid};

/// Tells which signals each thread waits for.
pub trait SignalSets {
    ghost sets: { Self → List ℕ };

    /// Those that the thread waits for.
    fn set_of(&self, t: Tid) -> SigSet
        requires { t < length (sets self.now) }
        ensures { result ≡ slice_index_or (sets self.now) t 0 };
}
