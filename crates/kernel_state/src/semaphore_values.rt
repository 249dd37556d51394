//! The values of semaphores.
ghost use Rattle.std.specs.Prelude.{◌≡◌, ◌≤◌, ◌<◌, length, pred, suc};
ghost use Rattle.rules_machine.specs.Semaphores.{semaphore_limit};
ghost use Rattle.rules_machine.specs.Threads.{semaphore_at};
ghost use Rattle.rules_machine.specs.Turns.{changes_semaphore};
ghost use Rattle.kernel_state.specs.Kernel.{after};

use crate::parts::Parts;
use words_numbers::ObjId;

impl Parts {
    /// The value of a semaphore, at most 32,767.
    pub fn semaphore(&self, k: ObjId) -> u16
        requires { k < length self.now.machine.semaphores }
        ensures value { result ≡ semaphore_at self.now.machine k }
        ensures limit { result ≤ semaphore_limit }
    {
        self.semaphores.value(k)
    }

    /// The value, which is above 0, falls by one.
    pub fn take_semaphore(&mut self, k: ObjId)
        requires known { k < length self.old.machine.semaphores }
        requires above { 0 < semaphore_at self.old.machine k }
        ensures { self.new ≡ after (changes_semaphore k pred) self.old }
    {
        self.semaphores.take(k);
    }

    /// The value, which is below 32,767, rises by one.
    pub fn post_semaphore(&mut self, k: ObjId)
        requires known { k < length self.old.machine.semaphores }
        requires below { semaphore_at self.old.machine k < semaphore_limit }
        ensures { self.new ≡ after (changes_semaphore k suc) self.old }
    {
        self.semaphores.post(k);
    }
}
