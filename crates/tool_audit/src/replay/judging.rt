//! Which rule a line breaks, of those before it.
ghost use Rattle.std.specs.Prelude.{◌≡◌, ◌+◌, ◌≤◌, ◌<◌, ◌*◌, ◌^◌, slice_get, true, length, IsTrue, IfNone};
ghost use Rattle.tool_audit.specs.Marks.{begins, exhausts, exits, is_activated, is_given, is_planned, is_refilled, is_taken, nothing};
ghost use Rattle.tool_audit.specs.Replay.{broken_now, fits_active, fits_oldest};
ghost use Rattle.tool_audit.specs.View.{judged};

use super::Replay;

impl Replay {
    // The least of rules 1, 3 and 5 that a line of the thread breaks that keeps its own rules.
    fn judge_plain(&self, kept: bool) -> Option<u8>
        ensures { result ≡ judged kept true true true true self.now }
    {
        if !kept {
            Some(1)
        } else if self.late {
            Some(3)
        } else if self.unpaid {
            Some(5)
        } else {
            None
        }
    }

    // The least rule that an activation breaks.
    pub(super) fn judge_activation(&self, capacity: u64) -> Option<u8>
        requires { capacity ≤ 3 * 10 ^ 18 }
        ensures rule { result ≡ broken_now self.now.limits self.now.account (is_activated capacity) }
        ensures used { IfNone result (self.now.account.planned ≡ self.now.account.high) }
    {
        let fits = self.is_left(capacity)
            && (capacity > 0 && (self.has_room() && self.planned == self.high));
        if !self.lives() {
            Some(1)
        } else if self.late {
            Some(3)
        } else if !fits {
            Some(4)
        } else if self.unpaid {
            Some(5)
        } else {
            None
        }
    }

    // The least rule that exhaustion breaks.
    pub(super) fn judge_exhaustion(&self) -> Option<u8>
        ensures { result ≡ broken_now self.now.limits self.now.account exhausts }
    {
        let fits = self.is_left(0) && self.fresh;
        if !self.lives() {
            Some(1)
        } else if self.late {
            Some(3)
        } else if !(fits && !self.unpaid) {
            Some(5)
        } else {
            None
        }
    }

    // Whether a plan is of the high ticks since the last activation, and due one period after it.
    fn is_since(&self, amount: u64, due: u64) -> bool
        ensures { result ≡ fits_active self.now.limits self.now.account self.now.account.active amount due }
    {
        match self.active {
            None => false,
            Some(x) => amount >= 1
                && ((x.high <= self.high && amount == self.high - x.high)
                    && (x.time <= due && due - x.time == self.period)),
        }
    }

    // The least rule that a plan breaks.
    pub(super) fn judge_plan(&self, amount: u64, due: u64) -> Option<u8>
        ensures rule { result ≡ broken_now self.now.limits self.now.account (is_planned amount due) }
        ensures room { IfNone result (length self.now.account.ahead < self.now.limits.max) }
        ensures used { IfNone result (self.now.account.planned + amount ≤ self.now.account.high) }
    {
        let fits = self.is_since(amount, due) && self.has_room();
        if !self.lives() {
            Some(1)
        } else if !fits {
            Some(2)
        } else if self.late {
            Some(3)
        } else if self.unpaid {
            Some(5)
        } else {
            None
        }
    }

    // Whether a refill is of the oldest plan without one.
    fn is_of_oldest(&self, amount: u64) -> bool
        ensures { result ≡ fits_oldest (slice_get self.now.account.ahead 0) self.now.account.now amount }
    {
        match self.ahead.as_slice().first() {
            None => false,
            Some(p) => amount == p.amount && self.instant == p.from,
        }
    }

    // The least rule that a refill breaks.
    pub(super) fn judge_refill(&self, amount: u64, capacity: u64) -> Option<u8>
        requires amount { amount ≤ 3 * 10 ^ 18 }
        requires capacity { capacity ≤ 3 * 10 ^ 18 }
        ensures rule { result ≡ broken_now self.now.limits self.now.account (is_refilled amount capacity) }
        ensures some { IfNone result (1 ≤ length self.now.account.ahead) }
        ensures oldest { IfNone result (IsTrue (fits_oldest (slice_get self.now.account.ahead 0) self.now.account.now amount)) }
    {
        let fits = self.is_of_oldest(amount)
            && (capacity + self.high == self.budget + self.refilled + amount
                && capacity <= self.budget);
        if !self.lives() {
            Some(1)
        } else if !(fits && !self.late) {
            Some(3)
        } else if self.unpaid {
            Some(5)
        } else {
            None
        }
    }

    // The least rule that a start breaks.
    pub(super) fn judge_start(&self) -> Option<u8>
        ensures { result ≡ broken_now self.now.limits self.now.account begins }
    {
        self.judge_plain(!self.started)
    }

    // The least rule that an exit breaks.
    pub(super) fn judge_exit(&self) -> Option<u8>
        ensures { result ≡ broken_now self.now.limits self.now.account exits }
    {
        self.judge_plain(self.lives())
    }

    // The least rule that a line breaks that gives the thread the processor.
    pub(super) fn judge_given(&self) -> Option<u8>
        ensures { result ≡ broken_now self.now.limits self.now.account is_given }
    {
        self.judge_plain(self.lives())
    }

    // The least rule that another line breaks.
    pub(super) fn judge_other(&self) -> Option<u8>
        ensures nothing { result ≡ broken_now self.now.limits self.now.account nothing }
        ensures taken { result ≡ broken_now self.now.limits self.now.account is_taken }
    {
        self.judge_plain(true)
    }
}
