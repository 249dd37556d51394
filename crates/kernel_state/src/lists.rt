//! The ready lists, and the priorities that threads stand at.
ghost use Rattle.std.specs.Prelude.{◌≡◌, ◌<◌, ◌+◌, IfSome, MatchOption, length, true};
ghost use Rattle.rules_lists.specs.Lists.{AreReadyLists, highest, prio_of, to_head, to_tail, without};
ghost use Rattle.rules_machine.specs.Priorities.{exec};
ghost use Rattle.kernel_state.specs.Kernel.{with_lists, after};
ghost use Rattle.kernel_state.specs.Standing.{IsNext, MachineStands, StandFrom};
ghost use Rattle.rules_machine.specs.Mutexes.{moves_unless_boosted};
ghost use Rattle.kernel_state.specs.Callers.{IsRunning};

use crate::parts::Parts;
use words_numbers::{Prio, Tid};

impl Parts {
    /// The execution priority.
    pub fn exec(&self, t: Tid) -> Prio
        requires { t < length self.now.names }
        ensures { result ≡ exec self.now.machine t }
    {
        self.table.exec(t)
    }

    /// The priority of the list on which it stands.
    pub fn stands_at(&self, t: Tid) -> Option<Prio>
        ensures { result ≡ prio_of t self.now.machine.lists }
    {
        self.ready.prio_of(t)
    }

    /// It becomes the tail of the list of its execution priority.
    pub fn put_last(&mut self, t: Tid)
        requires { IsRunning self.old t }
        ensures { self.new ≡ with_lists (to_tail t (exec self.old.machine t)) self.old }
    {
        let p = self.table.exec(t);
        // its range is known once it is read
        let _ = p.get();
        self.named.remove(t);
        self.ready.to_tail(t, p);
    }

    /// The same, and it stays named where it is.
    pub fn put_last_as_named(&mut self, t: Tid)
        requires { IsRunning self.old t }
        ensures { self.new ≡ with_lists (to_tail t (exec self.old.machine t)) self.old }
    {
        let p = self.table.exec(t);
        // its range is known once it is read
        let _ = p.get();
        self.ready.to_tail(t, p);
    }

    /// It becomes the head of the list of its execution priority.
    pub fn put_first(&mut self, t: Tid)
        requires { IsRunning self.old t }
        ensures { self.new ≡ with_lists (to_head t (exec self.old.machine t)) self.old }
    {
        let p = self.table.exec(t);
        // its range is known once it is read
        let _ = p.get();
        self.named.remove(t);
        self.ready.to_head(t, p);
    }

    /// The head of the highest list.
    pub fn head(&self) -> Option<Tid>
        ensures value { result ≡ highest self.now.machine.lists }
        ensures known { IfSome result (λ t. t < length self.now.names) }
        ensures lists { AreReadyLists (record { threads = length self.now.machine.threads; lists = self.now.machine.lists }) }
    {
        // so it is known which threads there are
        let _ = &self.names;
        self.ready.highest()
    }

    /// Costs nothing when it runs: there are 255 lists.
    pub fn know_lists(&self)
        ensures { length self.now.machine.lists ≡ 255 }
    {
        let _ = &self.named;
    }

    #[inline(always)]
    pub fn take_off(&mut self, t: Tid)
        requires { t < length self.old.names }
        ensures { self.new ≡ with_lists (without t) self.old }
    {
        self.named.remove(t);
        self.ready.remove(t);
    }

    /// The first named thread from that number on. Those before it, from that number on, stand right; where there is none, all do.
    pub fn next_named(&self, from: u16) -> Option<Tid>
        ensures next { MatchOption result (StandFrom self.now.machine from) (λ t. IsNext self.now.machine from t) }
        ensures known { IfSome result (λ t. t < length self.now.names) }
    {
        self.named.first_from(from)
    }

    /// Whether no other thread than that one is named. Those after it stand right then.
    pub fn is_named_alone(&self, t: Tid) -> bool
        requires { t < length self.now.names }
        ensures { result ≡ true → StandFrom self.now.machine (t + 1) }
    {
        self.named.is_alone(t)
    }

    /// A thread that stands right is named no more.
    pub fn forget(&mut self, t: Tid)
        requires known { t < length self.old.names }
        requires right { MachineStands self.old.machine t }
        ensures { self.new ≡ self.old }
    {
        self.named.remove(t);
    }

    /// It becomes the tail of its list at the next settling, unless it owns a mutex that can raise its priority.
    pub fn move_unless_boosted(&mut self, t: Tid)
        requires known { t < length self.old.names }
        requires room { length self.old.direct < 512 }
        ensures { self.new ≡ after (moves_unless_boosted t) self.old }
    {
        if !self.table.owns_boosting(t) {
            self.direct.push(t);
        }
    }
}
