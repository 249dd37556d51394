//! How a thread is scheduled: its policy, its priority, its slice and its ticks.
ghost use Rattle.std.specs.Prelude.{◌≡◌, ◌≤◌, ◌<◌, ◌+◌, ◌^◌, None, true, false, Some};
ghost use Rattle.rules_machine.specs.Threads.{is_runnable, is_blocked};
ghost use Rattle.rules_machine.specs.Priorities.{assigned_of};
ghost use Rattle.rules_machine.specs.Scheduling.{at_priority, takes_priority, with_policy, with_priority};
ghost use Rattle.rules_machine.specs.Ticks.{slice_is_used, without_slice, tick_end};
ghost use Rattle.kernel_threads.specs.Ends.{end_of};

use crate::ends::TickEnd;
use crate::server::new_server;
use crate::thread::Thread;
use words_numbers::{Params, Prio, Tick};
use words_script::Policy;

impl Thread {
    /// The priority that its policy gives.
    pub fn assigned(&self) -> Prio
        ensures { result ≡ assigned_of self.now }
    {
        match self.policy {
            Policy::Fifo(p) => p,
            Policy::Rr(p) => p,
            Policy::Sporadic(params) => match &self.server {
                None => params.low,
                Some(server) => server.assigned(),
            },
            Policy::Strict(params) => match &self.server {
                None => params.low,
                Some(server) => server.assigned(),
            },
        }
    }

    /// Whether it may have that priority.
    pub fn takes_priority(&self, p: Prio) -> bool
        ensures { result ≡ takes_priority self.now.policy p }
    {
        match self.policy {
            Policy::Fifo(_) => true,
            Policy::Rr(_) => true,
            Policy::Sporadic(params) => params.low < p,
            Policy::Strict(params) => params.low < p,
        }
    }

    /// Its priority is that one; of a sporadic or strict thread it is the high one that changes.
    pub fn set_priority(&mut self, p: Prio)
        requires { takes_priority self.old.policy p ≡ true }
        ensures { self.new ≡ with_priority p self.old }
    {
        self.policy = policy_at(&self.policy, p);
        if let Some(server) = &mut self.server {
            server.set_high(p);
        }
    }

    pub fn set_policy(&mut self, new: Policy, now: Tick)
        requires { now ≤ 10 ^ 18 }
        ensures { self.new ≡ with_policy new now self.old }
    {
        self.server = new_server(&new, now);
        self.policy = new;
        self.slice = 0;
    }

    /// Whether its round robin interval is used up.
    pub(crate) fn slice_is_used(&self, quantum: u64) -> bool
        ensures { result ≡ slice_is_used self.now.policy self.now.slice quantum }
    {
        match self.policy {
            Policy::Rr(_) => self.slice == quantum,
            _ => false,
        }
    }

    /// The rule of the tick's end.
    pub fn tick_end(&self, was_high: bool, quantum: u64) -> TickEnd
        ensures { end_of result ≡ tick_end was_high quantum self.now }
    {
        if was_high && self.consumed() > 0 && self.is_blocked() {
            return TickEnd::Planning;
        }
        if was_high && self.consumed() > 0 && self.is_runnable() && self.capacity_left() == 0 {
            return TickEnd::Exhausting;
        }
        if self.slice_is_used(quantum) {
            return TickEnd::Slicing;
        }
        TickEnd::Nothing
    }

    /// Its round robin interval begins anew.
    pub fn clear_slice(&mut self)
        ensures { self.new ≡ without_slice self.old }
    {
        self.slice = 0;
    }
}

fn policy_at(policy: &Policy, p: Prio) -> Policy
    requires { takes_priority policy.now p ≡ true }
    ensures { result ≡ at_priority p policy.now }
{
    match policy {
        Policy::Fifo(_) => Policy::Fifo(p),
        Policy::Rr(_) => Policy::Rr(p),
        Policy::Sporadic(params) => {
            match Params::try_new(p, params.low, params.period, params.budget, params.max) {
                Some(new) => Policy::Sporadic(new),
                None => unreachable!(),
            }
        }
        Policy::Strict(params) => {
            match Params::try_new(p, params.low, params.period, params.budget, params.max) {
                Some(new) => Policy::Strict(new),
                None => unreachable!(),
            }
        }
    }
}
