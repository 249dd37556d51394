//! The threads that become the tail of their lists at the next settling.
ghost use Rattle.std.specs.Prelude.{◌≡◌, ◌<◌, ◌++◌, ◌∷◌, [], length, slice_index};

use std::marker::Model;
use words_numbers::Tid;

// How many they are at most: a call finds fewer than 128, and a broadcast moves each of 256 threads at most once.
const ROOM: usize = 512;

/// Up to 512 threads, in order. It is seen as the list of their numbers.
#[derive(Drop)]
pub struct Direct {
    threads: [Tid; ROOM],
    count: usize,
}

impl Model for Direct {
    ghost use Rattle.std.specs.Prelude.{List, ℕ, ◌≡◌, ◌≤◌, length, take};

    ghost Value = { List ℕ };

    ghost view = { λ d. take d.count d.threads };

    ghost invariant = { λ d. (d.count ≤ 512) × (length d.threads ≡ 512) };
}

impl Direct {
    /// No thread.
    pub(crate) fn empty() -> Direct
        ensures { result ≡ [] }
    {
        Direct {
            threads: [Tid::default(); ROOM],
            count: 0,
        }
    }

    pub(crate) fn len(&self) -> usize
        ensures { result ≡ length self.now }
    {
        self.count
    }

    pub(crate) fn get(&self, i: usize) -> Tid
        requires { i < length self.now }
        ensures { result ≡ slice_index self.now i }
    {
        let threads = &self.threads;
        threads[i]
    }

    pub(crate) fn push(&mut self, t: Tid)
        requires { length self.old < 512 }
        ensures { self.new ≡ self.old ++ t ∷ [] }
    {
        self.threads[self.count] = t;
        self.count += 1;
    }

    pub(crate) fn clear(&mut self)
        ensures { self.new ≡ [] }
    {
        self.count = 0;
    }
}
