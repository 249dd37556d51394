//! A message that a queue holds.
ghost use Rattle.std.specs.Prelude.{◌≡◌};

use std::marker::Model;

/// A message that a queue holds: its priority, 0 to 31, and its value.
#[derive(Clone, Copy)]
pub struct HeldMessage {
    priority: u8,
    value: u64,
}

impl Model for HeldMessage {
    ghost use Rattle.rules_machine.specs.State as machine;

    ghost Value = { machine.Message };

    ghost view = { λ m. record { priority = m.priority; value = m.value } };

    ghost inverse = { λ m. record { priority = m.priority; value = m.value } };
}

impl HeldMessage {
    pub(crate) fn new(priority: u8, value: u64) -> HeldMessage
        ensures { result ≡ record { priority = priority; value = value } }
    {
        HeldMessage { priority, value }
    }

    pub fn priority(self) -> u8
        ensures { result ≡ self.priority }
    {
        self.priority
    }

    pub fn value(self) -> u64
        ensures { result ≡ self.value }
    {
        self.value
    }
}
