//! Ticks that begin plainly: such a tick changes no fact, where it is a quiet one and nothing is due at its end.
ghost use Rattle.std.specs.Prelude.{◌≡◌, ℕ, false, true};
ghost use Rattle.rules_machine.specs.declared.dispatch.LastDispatch.TheVariants as last;
ghost use Rattle.rules_machine.specs.Lists.{is};
ghost use Rattle.rules_machine.specs.Servers.{has_run};
ghost use Rattle.rules_machine.specs.Threads.{thread_at};
ghost use Rattle.laws_detail.specs.Rests.{BeginsPlainly};

use kernel_dispatch::has_run;
use kernel_state::Parts;
use words_numbers::Tid;

// Whether that thread alone may have an open run of its server. Only the thread of the last tick may have one.
fn has_no_other_run(p: &Parts, to: &Option<Tid>) -> bool
    requires latest { (u : ℕ) → has_run (thread_at p.now.machine u).server ≡ true → p.now.machine.last ≡ last.Ran u }
    ensures { result ≡ true → (u : ℕ) → is to.now u ≡ false → has_run (thread_at p.now.machine u).server ≡ false }
{
    if p.is_last(to) {
        return true;
    }
    match p.last_dispatch() {
        None => true,
        Some(u) => !has_run(p, u),
    }
}

/// Whether no run of a server closes as the tick of the head begins, and the head, where there is one, is not ending.
pub(crate) fn begins_plainly(p: &Parts) -> bool
    requires latest { (u : ℕ) → has_run (thread_at p.now.machine u).server ≡ true → p.now.machine.last ≡ last.Ran u }
    ensures { result ≡ true → BeginsPlainly p.now.machine }
{
    let to = p.head();
    let is_ending = match &to {
        None => false,
        Some(t) => p.thread(*t).is_ending(),
    };
    !is_ending && has_no_other_run(p, &to)
}
