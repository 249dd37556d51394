//! The sporadic server of a thread: its capacity, its activation time and its replenishments.
//!
//! Proved: each call is its definition. `budget_law`: over every list of allowed calls capacity, pending and consumed add up to
//! the initial budget, and high ticks are budget plus refills minus capacity.
//!
//! Times are instants in ticks; capacities, amounts and totals are numbers of ticks. The rules are those of SCHED_SPORADIC in
//! IEEE 1003.1-2017, XSH 2.8.4; `rules_server` states them. No call takes memory.
#![tactic(auto)]

ghost use Rattle.std.specs.Prelude.{true, false, ◌≡◌, ◌+◌, ◌^◌, ◌<◌, ◌≤◌, length, sum_by, IsTrue};
ghost use Rattle.rules_server.specs.Server.{AddsUp, new_server_as, is_high, has_room, joined, joins_as, planned_in, assigned, charge_ticks, activate, plan, replenishment, refill, oldest_pending, next_due, set_high, totals};
ghost use Rattle.rules_server.specs.Calls.{BudgetLaw, MayPlan};

use arrayvec::ArrayVec;
pub use rules_server::{BudgetLine, Replenish, ServerKind};
use std::marker::Model;
use words_numbers::{Params, Prio, Tick};

/// The server of one thread.
#[derive(Drop)]
pub struct Server {
    kind: ServerKind,
    params: Params,
    capacity: u64,
    activation: Tick,
    consumed: u64,
    // the oldest first; at most SS_REPL_MAX, which is 16
    pending: ArrayVec<Replenish, 16>,
    high_total: u64,
    refilled_total: u64,
}

impl Model for Server {
    ghost use Rattle.rules_server.specs.Server.{ServerState};

    ghost Value = { ServerState };

    ghost use Rattle.parts_server.specs.ServerView.{server_state, IsInside};

    ghost view = { server_state };

    ghost invariant = { IsInside };
}

impl Server {
    /// A server with its whole budget as its capacity, activated now, with nothing pending and its totals at 0.
    pub fn new(p: Params, kind: ServerKind, now: Tick) -> Server
        requires { now ≤ 10 ^ 18 }
        ensures { result ≡ new_server_as kind p now }
    {
        let budget = p.budget;
        Server {
            kind,
            params: p,
            capacity: budget,
            activation: now,
            consumed: 0,
            pending: ArrayVec::new(),
            high_total: 0,
            refilled_total: 0,
        }
    }

    /// Whether the assigned priority is the high one: there is capacity, and room for one more pending replenishment.
    pub fn is_high(&self) -> bool
        ensures { result ≡ is_high self.now }
    {
        match self.kind {
            ServerKind::Sporadic => self.capacity > 0 && self.has_room(),
            ServerKind::Strict => self.capacity > 0,
        }
    }

    /// Whether the next replenishment joins the last one.
    fn joins(&self) -> bool
        ensures { result ≡ joins_as self.now.kind (length self.now.pending) self.now.params.max }
    {
        match self.kind {
            ServerKind::Sporadic => false,
            ServerKind::Strict => !self.has_room(),
        }
    }

    /// Whether one more replenishment may become pending.
    fn has_room(&self) -> bool
        ensures { result ≡ has_room self.now }
    {
        self.pending.len() < self.params.max as usize
    }

    /// The assigned priority: the high one or the low one.
    pub fn assigned(&self) -> Prio
        ensures { result ≡ assigned self.now }
    {
        if self.is_high() {
            self.params.high
        } else {
            self.params.low
        }
    }

    /// The rule by which it plans.
    pub fn kind(&self) -> ServerKind
        ensures { result ≡ self.now.kind }
    {
        self.kind
    }

    /// The ticks that may still be run at the high priority before a refill.
    pub fn capacity(&self) -> u64
        ensures { result ≡ self.now.capacity }
    {
        self.capacity
    }

    /// The ticks that were run at the high priority and that no replenishment has been planned for.
    pub fn consumed(&self) -> u64
        ensures { result ≡ self.now.consumed }
    {
        self.consumed
    }

    /// The time from which the next replenishment is due after its period.
    pub fn activation(&self) -> Tick
        ensures { result ≡ self.now.activation }
    {
        self.activation
    }

    /// The pending replenishments, the oldest first.
    pub fn pending(&self) -> &[Replenish]
        ensures { result.now ≡ self.now.pending }
    {
        self.pending.as_slice()
    }

    /// Costs nothing when it runs: at most 16 replenishments are pending, SS_REPL_MAX.
    pub fn know_few(&self)
        ensures { length self.now.pending ≤ 16 }
    {
        let _few = self.pending.len();
    }

    /// The totals since the server was new.
    pub fn totals(&self) -> BudgetLine
        ensures value { result ≡ totals self.now }
        ensures adds_up { AddsUp self.now }
    {
        BudgetLine {
            high: self.high_total,
            init: self.params.budget,
            refilled: self.refilled_total,
            capacity: self.capacity,
        }
    }

    /// Runs k ticks at the high priority, at once: the server is as after k single ticks.
    #[tactic(auto, using(rules_server::proofs::Laws::charge_ticks_is))]
    pub fn charge(&mut self, k: u64)
        requires high { IsTrue (is_high self.old) }
        requires within { k ≤ self.old.capacity }
        requires small { self.old.high_total + k ≤ 10 ^ 18 }
        ensures { self.new ≡ charge_ticks k self.old }
    {
        self.capacity -= k;
        self.consumed += k;
        self.high_total += k;
    }

    /// Posts the activation time.
    pub fn activate(&mut self, now: Tick)
        requires unused { self.old.consumed ≡ 0 }
        requires small { now ≤ 10 ^ 18 }
        ensures { self.new ≡ activate now self.old }
    {
        self.activation = now;
    }

    /// Plans that what was consumed comes back one period after the activation time.
    pub fn plan(&mut self) -> Replenish
        requires used { 1 ≤ self.old.consumed }
        requires room { MayPlan self.old.kind self.old }
        ensures value { result ≡ replenishment self.old }
        ensures after { self.new ≡ plan self.old }
    {
        let planned = self.replenishment();
        let joins = self.joins();
        let Replenish { amount, due } = planned;
        put(&mut self.pending, joins, Replenish { amount, due });
        self.consumed = 0;
        Replenish { amount, due }
    }

    /// What was consumed, due one period after the activation time.
    fn replenishment(&self) -> Replenish
        ensures { result ≡ replenishment self.now }
    {
        let due = self.activation.after(self.params.period).unwrap();
        Replenish {
            amount: self.consumed,
            due,
        }
    }

    /// Carries out the oldest pending replenishment, and gives it. None exactly where none is pending.
    #[tactic(auto, using(rules_server::proofs::Laws::refill_from_is))]
    pub fn refill(&mut self) -> Option<Replenish>
        ensures value { result ≡ oldest_pending self.old }
        ensures after { self.new ≡ refill self.old }
    {
        if self.pending.is_empty() {
            return None;
        }
        let oldest = self.pending.remove(0);
        self.capacity += oldest.amount;
        self.refilled_total += oldest.amount;
        Some(oldest)
    }

    /// When the oldest pending replenishment is due. None exactly where none is pending.
    pub fn next_due(&self) -> Option<Tick>
        ensures { result ≡ next_due self.now }
    {
        self.pending.first().map(|oldest| oldest.due)
    }

    /// Changes the high priority alone.
    pub fn set_high(&mut self, p: Prio)
        requires { self.old.params.low < p }
        ensures { self.new ≡ set_high p self.old }
    {
        self.params.high = p;
    }
}

// adds a replenishment as the last of these, or joins it to the last
fn put(pending: &mut ArrayVec<Replenish, 16>, joins: bool, planned: Replenish)
    requires some { joins ≡ true → 0 < length pending.old.items }
    requires room { joins ≡ false → length pending.old.items < 16 }
    requires few { length pending.old.items ≤ 16 }
    requires small { sum_by (λ r. r.amount) pending.old.items + planned.amount ≤ 10 ^ 18 }
    ensures { pending.new.items ≡ planned_in joins planned pending.old.items }
{
    if joins {
        join(pending, planned);
        return;
    }
    pending.push(planned);
}

// adds an amount to the last of these, which takes the new due tick
fn join(pending: &mut ArrayVec<Replenish, 16>, planned: Replenish)
    requires some { 0 < length pending.old.items }
    requires few { length pending.old.items ≤ 16 }
    requires small { sum_by (λ r. r.amount) pending.old.items + planned.amount ≤ 10 ^ 18 }
    ensures { pending.new.items ≡ joined planned pending.old.items }
{
    let last = pending.pop().unwrap();
    pending.push(Replenish {
        amount: last.amount + planned.amount,
        due: planned.due,
    });
}

/// Whatever calls are made of a new server, one after another, nothing of its budget is lost or gained: capacity, pending amounts
/// and consumed ticks add up to it, each tick at the high priority came from it or from a refill, and no refill is cut off.
pub fn budget_law()
    ensures { BudgetLaw }
{}
