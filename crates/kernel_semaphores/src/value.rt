//! The value of one semaphore.
ghost use Rattle.std.specs.Prelude.{◌≡◌, ◌≤◌, ◌<◌, pred, suc};
ghost use Rattle.rules_machine.specs.Semaphores.{semaphore_limit};

use std::marker::Model;

/// The value of a semaphore, at most 32,767.
#[derive(Drop)]
pub(crate) struct SemaphoreValue {
    count: u16,
}

impl Model for SemaphoreValue {
    ghost use Rattle.std.specs.Prelude.{ℕ, ◌≤◌};
    ghost use Rattle.rules_machine.specs.Semaphores.{semaphore_limit};

    ghost Value = { ℕ };

    ghost view = { λ v. v.count };

    ghost invariant = { λ v. v.count ≤ semaphore_limit };
}

impl SemaphoreValue {
    pub(crate) fn new(value: u32) -> SemaphoreValue
        requires { value ≤ semaphore_limit }
        ensures { result ≡ value }
    {
        SemaphoreValue {
            count: value as u16,
        }
    }

    pub(crate) fn get(&self) -> u16
        ensures value { result ≡ self.now }
        ensures limit { result ≤ semaphore_limit }
    {
        self.count
    }

    pub(crate) fn fall(&mut self)
        requires { 0 < self.old }
        ensures { self.new ≡ pred self.old }
    {
        self.count -= 1;
    }

    pub(crate) fn rise(&mut self)
        requires { self.old < semaphore_limit }
        ensures { self.new ≡ suc self.old }
    {
        self.count += 1;
    }
}
