//! Who waits for a condition, and what its end asks for.
ghost use Rattle.std.specs.Prelude.{◌≡◌, ◌<◌, ◌^◌, None, Some, length, option_and_then, true};
ghost use Rattle.rules_machine.specs.Conditions.{released_mutex, waits_with_other_mutex};
ghost use Rattle.rules_machine.specs.Mutexes.{owned_by};
ghost use Rattle.rules_machine.specs.Priorities.{mutex_awaited_by};
ghost use Rattle.rules_machine.specs.State.{for_mutex_again};
ghost use Rattle.rules_machine.specs.State as machine;
ghost use Rattle.rules_machine.specs.Threads.{is_blocked, thread_at, waiting_of as waiting_at};
ghost use Rattle.rules_machine.specs.Waiters.{somebody_waits};
ghost use Rattle.rules_machine.specs.Waking.{blocks, call_in};
ghost use Rattle.kernel_state.specs.Kernel.{after, by};
ghost use Rattle.kernel_state.specs.Waits.{CanWait};

use crate::parts::Parts;
use rules_machine::CondEnd;
use words_numbers::{ObjId, Tid};

impl Parts {
    /// Whether somebody waits for the condition with another mutex.
    pub fn is_bound_elsewhere(&self, c: ObjId, k: ObjId) -> bool
        ensures { result ≡ somebody_waits self.now.machine (waits_with_other_mutex c k) }
    {
        self.table.is_bound_elsewhere(c, k)
    }

    /// The mutex that a thread's condition wait released; `None` exactly where it is in none.
    #[tactic(auto, using(crate::proofs::InConditions::none_released, crate::proofs::InConditions::some_released))]
    pub fn released_mutex(&self, t: Tid) -> Option<ObjId>
        requires { t < length self.now.names }
        ensures { result ≡ option_and_then (λ (w : machine.Waiting). released_mutex w.wait) (waiting_at self.now.machine t) }
    {
        match self.thread(t).wait() {
            None => None,
            Some(w) => w.released_mutex(),
        }
    }

    /// How many mutexes a thread owns.
    pub fn owned_count(&self, t: Tid) -> usize
        ensures { result ≡ length (owned_by self.now.machine t) }
    {
        self.table.owned_count(t)
    }

    /// A thread in a condition wait, which has ended, waits for its mutex, in the same call.
    pub fn block_again(&mut self, t: Tid, k: ObjId, how: CondEnd)
        requires known { t < length self.old.names }
        requires blocked { is_blocked (thread_at self.old.machine t).status ≡ true }
        requires waits_not { mutex_awaited_by (thread_at self.old.machine t) ≡ None }
        requires serial { self.old.machine.next_serial < 2 ^ 63 }
        requires may { CanWait self.old.machine t (Some k) }
        ensures { self.new ≡ after (blocks (by t (call_in (waiting_at self.old.machine t))) (for_mutex_again k how) None) self.old }
    {
        let serial = self.take_serial();
        self.keep_blocked(t, k, how, serial);
    }
}
