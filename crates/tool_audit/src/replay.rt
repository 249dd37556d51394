//! What the lines so far say of one server, replayed from instant to instant.
ghost use Rattle.std.specs.Prelude.{◌≡◌, ◌+◌, ◌≤◌, ◌*◌, ◌^◌, nat_lt, slice_get, true, length, ◌<◌, IsTrue};
ghost use Rattle.std.specs.List.{list_any};
ghost use Rattle.tool_audit.specs.Leap.{can, left};
ghost use Rattle.tool_audit.specs.Head.{in_numbers, in_ranges};
ghost use Rattle.tool_audit.specs.Marks.{begins, exits, is_activated, is_given, is_planned, is_refilled, is_taken};
ghost use Rattle.tool_audit.specs.Replay.{fits_oldest, lives, opened, room};
ghost use Rattle.tool_audit.specs.View.{after_advance, is_left, leapt, misses_by, said};

use crate::Limits;
use arrayvec::ArrayVec;
use std::marker::Model;

mod hearing;
mod judging;

/// A plan without a refill, and the instant of its refill.
#[derive(Clone, Copy, Default)]
pub struct Planned {
    pub amount: u64,
    pub from: u64,
}

/// The last activation with no plan behind it: when it was, and how many high ticks there were before.
#[derive(Clone, Copy)]
pub struct Activation {
    pub time: u64,
    pub high: u64,
}

/// The account of one server.
#[derive(Drop)]
pub(crate) struct Replay {
    period: u64,
    budget: u64,
    max: u64,
    started: bool,
    exited: bool,
    has: bool,
    instant: u64,
    ran: u64,
    high: u64,
    refilled: u64,
    planned: u64,
    ahead: ArrayVec<Planned, 16>,
    active: Option<Activation>,
    fresh: bool,
    owes: bool,
    late: bool,
    unpaid: bool,
}

impl Model for Replay {
    ghost use Rattle.tool_audit.specs.View.{Kept};

    ghost Value = { Kept };

    ghost use Rattle.tool_audit.specs.View.{kept_of, IsInside};

    ghost view = { kept_of };

    ghost invariant = { IsInside };
}

// Whether one of these plans has an instant below this one.
fn any_before(plans: &[Planned], to: u64) -> bool
    ensures { result ≡ list_any (λ (p : Planned). nat_lt p.from to) plans.now }
{
    plans.iter().any(|p| p.from < to)
}

impl Replay {
    /// An account of a server of which no line was read.
    pub(crate) fn new(limits: &Limits) -> Replay
        requires small { in_numbers limits.now ≡ true }
        requires right { in_ranges limits.now ≡ true }
        ensures { result ≡ record { limits = limits.now; account = opened } }
    {
        Replay {
            period: limits.period,
            budget: limits.budget,
            max: limits.max,
            started: false,
            exited: false,
            has: false,
            instant: 0,
            ran: 0,
            high: 0,
            refilled: 0,
            planned: 0,
            ahead: ArrayVec::new(),
            active: None,
            fresh: false,
            owes: false,
            late: false,
            unpaid: false,
        }
    }

    // What is left of the capacity.
    fn rest(&self) -> u64
        ensures { result ≡ left self.now.limits self.now.account }
    {
        self.budget + self.refilled - self.high
    }

    // Whether the thread runs at its high priority while capacity is left.
    fn may(&self) -> bool
        ensures { result ≡ can self.now.limits self.now.account }
    {
        self.has && self.has_room()
    }

    // Whether a refill is missing whose instant is below this one.
    fn misses(&self, to: u64) -> bool
        ensures { result ≡ misses_by self.now.account to }
    {
        !self.exited && any_before(self.ahead.as_slice(), to)
    }

    // Goes on by some ticks, at least one, of which so many at most are high.
    fn leap(&mut self, ticks: u64, rest: u64, may: bool, missed: bool)
        requires some { 1 ≤ ticks }
        requires small { self.old.account.now + ticks ≤ 3 * 10 ^ 18 }
        requires rest_is { rest ≡ left self.old.limits self.old.account }
        requires may_is { may ≡ can self.old.limits self.old.account }
        requires missed_is { missed ≡ misses_by self.old.account (self.old.account.now + ticks) }
        ensures { self.new ≡ leapt ticks rest may missed self.old }
    {
        self.unpaid = self.unpaid || (self.owes || (may && (0 < rest && rest < ticks)));
        self.late = self.late || missed;
        self.ran += if self.has { ticks } else { 0 };
        self.high += if may { rest.min(ticks) } else { 0 };
        self.fresh = may && ticks <= rest;
        self.owes = may && ticks == rest;
        self.instant += ticks;
    }

    /// Goes on to an instant, where it is not there yet.
    pub(crate) fn advance(&mut self, to: u64)
        requires { to ≤ 3 * 10 ^ 18 }
        ensures { self.new ≡ after_advance to self.old }
    {
        if to <= self.instant {
            return;
        }
        let rest = self.rest();
        let may = self.may();
        let missed = self.misses(to);
        self.leap(to - self.instant, rest, may, missed);
    }

    // Whether the thread has started, and not exited.
    fn lives(&self) -> bool
        ensures { result ≡ lives self.now.account }
    {
        self.started && !self.exited
    }

    // Whether one plan more may be without a refill.
    fn has_room(&self) -> bool
        ensures { result ≡ room self.now.limits self.now.account }
    {
        self.ahead.len() < self.max as usize
    }

    // Whether so much is left of the capacity.
    fn is_left(&self, capacity: u64) -> bool
        requires { capacity ≤ 3 * 10 ^ 18 }
        ensures { result ≡ is_left self.now capacity }
    {
        capacity + self.high == self.budget + self.refilled
    }

    /// The thread starts.
    pub(crate) fn start(&mut self)
        ensures { self.new ≡ said begins self.old }
    {
        self.started = true;
    }

    /// The processor is given to the thread.
    pub(crate) fn give(&mut self)
        ensures { self.new ≡ said is_given self.old }
    {
        self.has = true;
    }

    /// The processor is given to another thread, or to none.
    pub(crate) fn take(&mut self)
        ensures { self.new ≡ said is_taken self.old }
    {
        self.has = false;
    }

    /// The thread is activated.
    pub(crate) fn activate(&mut self, capacity: u64)
        requires { self.old.account.planned ≡ self.old.account.high }
        ensures { self.new ≡ said (is_activated capacity) self.old }
    {
        self.active = Some(Activation {
            time: self.instant,
            high: self.high,
        });
    }

    /// The thread exits.
    pub(crate) fn exit(&mut self)
        ensures { self.new ≡ said exits self.old }
    {
        self.exited = true;
        self.owes = false;
    }

    /// A plan is made, of what was used since the activation.
    pub(crate) fn plan(&mut self, amount: u64, due: u64)
        requires room { length self.old.account.ahead < self.old.limits.max }
        requires used { self.old.account.planned + amount ≤ self.old.account.high }
        ensures { self.new ≡ said (is_planned amount due) self.old }
    {
        self.planned += amount;
        self.ahead.push(Planned {
            amount,
            from: due.max(self.instant),
        });
        self.active = None;
        self.owes = false;
    }

    /// The oldest plan is carried out.
    pub(crate) fn refill(&mut self, amount: u64, capacity: u64)
        requires some { 1 ≤ length self.old.account.ahead }
        requires oldest { IsTrue (fits_oldest (slice_get self.old.account.ahead 0) self.old.account.now amount) }
        ensures { self.new ≡ said (is_refilled amount capacity) self.old }
    {
        self.ahead.remove(0);
        self.refilled += amount;
    }
}
