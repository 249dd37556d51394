//! The sporadic server of a thread.
ghost use Rattle.std.specs.Prelude.{◌≡◌, ◌≤◌, ◌<◌, ◌^◌, None, option_map, option_and_then, true, false, is_some, Some};
ghost use Rattle.rules_server.specs.Server.{ServerState, activate, is_high, next_due, plan, refill, totals};
ghost use Rattle.rules_machine.specs.Priorities.{assigned_of};
ghost use Rattle.rules_machine.specs.Servers.{at_once, at_once_as, has_high, has_run, high_server, is_strict, may_open, opening_server, server_of, with_server};
ghost use Rattle.rules_leaps.specs.Quiet.{server_after};
ghost use Rattle.kernel_threads.specs.Room.{ServerHasRoom};
ghost use Rattle.rules_machine.specs.Machine.{budget_of};
ghost use Rattle.rules_machine.specs.Ticks.{capacity_in, consumed_in};
ghost use Rattle.kernel_threads.specs.Ends.{greatest_pending, planned_of, refilled_of};
ghost use Rattle.rules_server.specs.Calls.{MayPlan};

use crate::ends::{Planned, Refilled};
use crate::thread::Thread;
use parts_server::{BudgetLine, Server, ServerKind};
use words_numbers::Tick;
use words_script::Policy;
use words_trace::BudgetView;

impl Thread {
    /// The capacity of its server, where an activation is made at once: a strict server is activated where a run of it opens.
    pub fn capacity(&self) -> Option<u64>
        ensures { result ≡ option_map (λ (s : ServerState). s.capacity) (at_once self.now.server) }
    {
        match &self.server {
            None => None,
            Some(server) => capacity_at_once(server),
        }
    }

    /// The same, where the assigned priority is the high one.
    pub fn high_capacity(&self) -> Option<u64>
        ensures { result ≡ option_map (λ (s : ServerState). s.capacity) (at_once (high_server self.now.server)) }
    {
        match &self.server {
            None => None,
            Some(server) => {
                if server.is_high() {
                    capacity_at_once(server)
                } else {
                    None
                }
            }
        }
    }

    /// The capacity of its server, where a run of it may open: a strict one at its high priority that has consumed nothing.
    pub fn opening_capacity(&self) -> Option<u64>
        ensures { result ≡ option_map (λ (s : ServerState). s.capacity) (opening_server self.now.server) }
    {
        match &self.server {
            None => None,
            Some(server) => {
                if may_open(server) {
                    Some(server.capacity())
                } else {
                    None
                }
            }
        }
    }

    /// Whether a run of its server is open: a strict one that has consumed what it did not plan.
    pub fn has_run(&self) -> bool
        ensures { result ≡ has_run self.now.server }
    {
        match &self.server {
            None => false,
            Some(server) => is_strict(server.kind()) && server.consumed() > 0,
        }
    }

    /// The activation time of its server is now.
    pub fn activate(&mut self, now: Tick)
        requires unused { consumed_in self.old.server ≡ 0 }
        requires small { now ≤ 10 ^ 18 }
        ensures { self.new ≡ with_server (activate now) self.old }
    {
        if let Some(server) = &mut self.server {
            server.activate(now);
        }
    }

    /// When its oldest pending replenishment is due.
    pub fn refill_due(&self) -> Option<Tick>
        ensures { result ≡ option_and_then next_due self.now.server }
    {
        match &self.server {
            None => None,
            Some(server) => server.next_due(),
        }
    }

    pub fn has_server(&self) -> bool
        ensures { result ≡ is_some self.now.server }
    {
        self.server.is_some()
    }

    /// Whether its server has the high priority.
    pub(crate) fn has_high(&self) -> bool
        ensures { result ≡ has_high self.now.server }
    {
        match &self.server {
            None => false,
            Some(server) => server.is_high(),
        }
    }

    /// What its server consumed and did not plan.
    pub fn consumed(&self) -> u64
        ensures { result ≡ consumed_in self.now.server }
    {
        match &self.server {
            None => 0,
            Some(server) => server.consumed(),
        }
    }

    /// The capacity of its server, 0 where it has none.
    pub fn capacity_left(&self) -> u64
        ensures { result ≡ capacity_in self.now.server }
    {
        match &self.server {
            None => 0,
            Some(server) => server.capacity(),
        }
    }

    /// What its server consumed becomes the last pending replenishment, or joins it.
    pub fn plan_next(&mut self) -> Planned
        requires { 1 ≤ consumed_in self.old.server }
        ensures value { Some result ≡ option_map planned_of self.old.server }
        ensures thread { self.new ≡ with_server plan self.old }
    {
        let max = greatest_pending(&self.policy);
        match &mut self.server {
            None => unreachable!(),
            Some(server) => plan_server(server, max),
        }
    }

    /// The oldest pending replenishment of its server is carried out. The second answer is when the next one is due. The assigned priority
    /// stays, unless the high one is regained.
    pub fn refill_oldest(&mut self) -> (Refilled, Option<Tick>)
        requires { is_some self.old.server ≡ true }
        ensures value { Some result.0 ≡ option_map refilled_of self.old.server }
        ensures next { result.1 ≡ option_and_then next_due self.new.server }
        ensures priority { result.0.regains_high ≡ false → assigned_of self.new ≡ assigned_of self.old }
        ensures thread { self.new ≡ with_server refill self.old }
    {
        match &mut self.server {
            None => unreachable!(),
            Some(server) => {
                let refilled = refill_server(server);
                (refilled, server.next_due())
            }
        }
    }

    /// The totals of its server.
    pub fn totals(&self) -> Option<BudgetLine>
        ensures { result ≡ option_map totals self.now.server }
    {
        match &self.server {
            None => None,
            Some(server) => Some(server.totals()),
        }
    }
}

// A strict server is activated where a run of it opens, and nowhere else.
fn capacity_at_once(server: &Server) -> Option<u64>
    ensures { result ≡ option_map (λ (s : ServerState). s.capacity) (at_once_as server.now.kind server.now) }
{
    match server.kind() {
        ServerKind::Sporadic => Some(server.capacity()),
        ServerKind::Strict => None,
    }
}

fn is_strict(kind: ServerKind) -> bool
    ensures { result ≡ is_strict kind }
{
    match kind {
        ServerKind::Sporadic => false,
        ServerKind::Strict => true,
    }
}

fn may_open(server: &Server) -> bool
    ensures { result ≡ may_open server.now }
{
    is_strict(server.kind()) && server.is_high() && server.consumed() == 0
}

pub(crate) fn new_server(policy: &Policy, now: Tick) -> Option<Server>
    requires { now ≤ 10 ^ 18 }
    ensures { result ≡ server_of policy.now now }
{
    match policy {
        Policy::Fifo(_) => None,
        Policy::Rr(_) => None,
        Policy::Sporadic(params) => Some(Server::new(*params, ServerKind::Sporadic, now)),
        Policy::Strict(params) => Some(Server::new(*params, ServerKind::Strict, now)),
    }
}

pub(crate) fn charge_server(server: &mut Option<Server>, k: u64)
    requires { ServerHasRoom k server.old }
    ensures { server.new ≡ option_map (server_after k) server.old }
{
    if let Some(server) = server {
        if server.is_high() {
            server.charge(k);
        }
    }
}

// How many replenishments may be pending under that policy.
fn greatest_pending(policy: &Policy) -> usize
    ensures { result ≡ greatest_pending policy.now }
{
    match policy {
        Policy::Fifo(_) => 0,
        Policy::Rr(_) => 0,
        Policy::Sporadic(params) => params.max as usize,
        Policy::Strict(params) => params.max as usize,
    }
}

// What the server, for which at most so many replenishments may be pending, consumed becomes one.
fn plan_server(server: &mut Server, max: usize) -> Planned
    requires used { 1 ≤ server.old.consumed }
    requires room { MayPlan server.old.kind server.old }
    requires most { max ≡ server.old.params.max }
    ensures value { result ≡ planned_of server.old }
    ensures after { server.new ≡ plan server.old }
{
    let count = server.pending().len();
    let replenish = server.plan();
    Planned {
        replenish,
        is_first: count == 0,
        has_room: count + 1 < max,
    }
}

fn refill_server(server: &mut Server) -> Refilled
    ensures value { result ≡ refilled_of server.old }
    ensures after { server.new ≡ refill server.old }
    ensures stays { is_high server.old ≡ true → is_high server.new ≡ true }
{
    // what a server keeps to is known once it is read
    let _ = server.totals();
    let was_high = server.is_high();
    let amount = match server.refill() {
        None => 0,
        Some(r) => r.amount,
    };
    Refilled {
        amount,
        capacity: server.capacity(),
        regains_high: !was_high && server.is_high(),
    }
}

pub(crate) fn budget_of(server: &Server) -> BudgetView
    ensures { result ≡ budget_of server.now }
{
    let totals = server.totals();
    BudgetView {
        high: totals.high,
        init: totals.init,
        refilled: totals.refilled,
        capacity: totals.capacity,
    }
}
