//! The facts of an instant as definitions that compute: the lists of threads, who waits for what and until when, owners, waiters,
//! messages, timers and pending signals of a state of the list machine, the text in which they are shown, and that of a trace with the
//! facts that change. docs/FACTS.md explains them; the two commands are this project's own.
//!
//! Proved: the facts of a state and their text, as definitions that compute; their worked examples hold by computing.
//! `head_is_shown`: the head of the first list that is shown at an instant is the thread to which its tick is given.
//! `best_waiter_is_told`: of the waiters that are told the first is the one that is served.
//!
//! Each function stands for a law, which its clause states. None of them does anything when it is called.
#![tactic(auto)]

ghost use Rattle.std.specs.Prelude.{Bool, ℕ};
ghost use Rattle.words_script.specs.declared.decl.Script.{Script};
ghost use Rattle.rules_bodies.specs.Next.{Place};
ghost use Rattle.rules_machine.specs.State.{Machine, Wait};
ghost use Rattle.rules_facts.specs.Told.{ShowsHead, TellsBestWaiter};

/// The head of the first list that is shown at an instant is the thread to which its tick is given, unless the process has ended (IEEE
/// 1003.1-2017, XSH 2.8.4); where no list is shown it is given to nobody.
#[tactic(auto, using(crate::proofs::Dispatched::shows_head))]
pub fn head_is_shown()
    ensures { (script : Script) → (n : ℕ) → ShowsHead script n }
{}

/// Of those who wait for something the one that is told first is served first, in each state of the machine.
#[tactic(auto, using(crate::proofs::Order::best_waiter_is_told))]
pub fn best_waiter_is_told()
    ensures { (m : Machine Place) → (passes : Wait → Bool) → TellsBestWaiter m passes }
{}
