//! A notification that is asked for.
ghost use Rattle.std.specs.Prelude.{◌≡◌, ◌≤◌};

use std::marker::Model;

/// A notification that is asked for: a signal, 0 to 31, and its value. It is sent when a message comes to the empty queue while
/// no thread waits to receive from it.
#[derive(Clone, Copy)]
pub struct Registration {
    signal: u8,
    value: u64,
}

impl Model for Registration {
    ghost use Rattle.rules_machine.specs.State as machine;

    ghost Value = { machine.Registration };

    ghost view = { λ r. record { signal = r.signal; value = r.value } };

    ghost inverse = { λ r. record { signal = r.signal; value = r.value } };
}

impl Registration {
    pub fn new(signal: u8, value: u64) -> Registration
        ensures { result ≡ record { signal = signal; value = value } }
    {
        Registration { signal, value }
    }

    pub fn signal(self) -> u8
        ensures { result ≡ self.signal }
    {
        self.signal
    }

    pub fn value(self) -> u64
        ensures { result ≡ self.value }
    {
        self.value
    }
}
