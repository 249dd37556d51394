//! What becomes of an account where something is said of its thread.
ghost use Rattle.std.specs.Prelude.{◌≡◌, ◌+◌, ◌≤◌, ◌*◌, ◌^◌, ◌∷◌, [], IfNone};
ghost use Rattle.tool_check.specs.declared.form.Form.TheVariants as form;
ghost use Rattle.tool_audit.specs.Replay.{breaks, broken_now};
ghost use Rattle.tool_check.specs.Small.{AreSmall};
ghost use Rattle.tool_audit.specs.Said.{meant, IsSmall};
ghost use Rattle.tool_audit.specs.View.{said};
ghost use Rattle.tool_audit.specs.Hearing.{heard, CanSay};
ghost use Rattle.tool_audit.specs.Watch.{fits_numbers};

use super::Replay;
use crate::saying::Saying;
use tool_check::Form;

impl Replay {
    /// The least rule that a line breaks that says this.
    fn judge(&self, what: Saying) -> Option<u8>
        requires { IsSmall what }
        ensures rule { result ≡ broken_now self.now.limits self.now.account (meant what) }
        ensures can { IfNone result (CanSay self.now.account self.now.limits what) }
    {
        match what {
            Saying::Begins => self.judge_start(),
            Saying::IsGiven => self.judge_given(),
            Saying::IsTaken | Saying::Nothing => self.judge_other(),
            Saying::IsActivated(capacity) => self.judge_activation(capacity),
            Saying::Exhausts => self.judge_exhaustion(),
            Saying::IsPlanned(amount, due) => self.judge_plan(amount, due),
            Saying::IsRefilled(amount, capacity) => self.judge_refill(amount, capacity),
            Saying::Exits => self.judge_exit(),
        }
    }

    // Takes in what was judged to break no rule.
    fn say(&mut self, what: Saying)
        requires { CanSay self.old.account self.old.limits what }
        ensures { self.new ≡ said (meant what) self.old }
    {
        match what {
            Saying::Begins => self.start(),
            Saying::IsGiven => self.give(),
            Saying::IsTaken => self.take(),
            Saying::IsActivated(capacity) => self.activate(capacity),
            Saying::IsPlanned(amount, due) => self.plan(amount, due),
            Saying::IsRefilled(amount, capacity) => self.refill(amount, capacity),
            Saying::Exits => self.exit(),
            Saying::Exhausts | Saying::Nothing => {}
        }
    }

    /// Goes on to a time, and judges what is said there: the least rule that it breaks. What breaks none is taken in.
    pub(crate) fn hear(&mut self, time: u64, what: Saying) -> Option<u8>
        requires time { time ≤ 3 * 10 ^ 18 }
        requires small { IsSmall what }
        ensures rule { result ≡ breaks self.old.limits self.old.account (record { time = time; saying = meant what }) }
        ensures heard { IfNone result (self.new ≡ heard time (meant what) self.old) }
        ensures limits { self.new.limits ≡ self.old.limits }
    {
        self.advance(time);
        let rule = self.judge(what);
        if rule.is_some() {
            return rule;
        }
        self.say(what);
        None
    }

    /// Whether the numbers of a closing line without a budget are right: the ticks.
    fn fits_ticks(&self, ticks: u64) -> bool
        ensures { result ≡ fits_numbers self.now.limits self.now.account form.Thread (ticks ∷ []) }
    {
        !self.lives() && ticks == self.ran
    }

    /// Whether those of one with a budget are.
    fn fits_budget(&self, ticks: u64, high: u64, init: u64, refilled: u64, capacity: u64) -> bool
        requires high { high ≤ 3 * 10 ^ 18 }
        requires init { init ≤ 3 * 10 ^ 18 }
        requires refilled { refilled ≤ 3 * 10 ^ 18 }
        requires capacity { capacity ≤ 3 * 10 ^ 18 }
        ensures { result ≡ fits_numbers self.now.limits self.now.account form.Budget (ticks ∷ high ∷ init ∷ refilled ∷ capacity ∷ []) }
    {
        self.lives()
            && (ticks == self.ran
                && (high == self.high
                    && (init == self.budget
                        && (refilled == self.refilled && capacity + high == init + refilled))))
    }

    /// Whether the numbers of a closing line are right.
    pub(crate) fn fits_end(&self, form: Form, nums: &[u64]) -> bool
        requires { AreSmall nums.now }
        ensures { result ≡ fits_numbers self.now.limits self.now.account form nums.now }
    {
        match form {
            Form::Thread => match nums {
                [ticks] => self.fits_ticks(*ticks),
                _ => false,
            },
            Form::Budget => match nums {
                [ticks, high, init, refilled, capacity] => {
                    self.fits_budget(*ticks, *high, *init, *refilled, *capacity)
                }
                _ => false,
            },
            _ => false,
        }
    }
}
