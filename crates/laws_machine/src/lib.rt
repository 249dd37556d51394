//! Laws of the list machine over whole runs. What is good and what a budget is stand in `rules_machine`; here are the proofs, one
//! folder a part.
//!
//! Proved: `states_are_good`: every state of the run of every well formed script is good, also between the items of an instant.
//! `budgets_are_kept`: in each of them each live sporadic or strict thread keeps the law of the budget. `ticks_have_two_parts`: a tick is
//! the items of its instant, and then what its dispatch begins. `items_come_one_by_one`, `items_are_of_the_agenda`: the items of
//! an instant are those that are due, one at a time. `servers_rest`: where a thread does not run, or not at its
//! high priority, its server has consumed nothing that is not planned.
//!
//! Each function stands for a law, which its clause states. None of them does anything when it is called.
#![tactic(auto)]

ghost use Rattle.std.specs.Prelude.{None, ℕ, suc, ◌≡◌};
ghost use Rattle.words_script.specs.declared.decl.Script.{Script};
ghost use Rattle.rules_bodies.specs.Next.{Place};
ghost use Rattle.rules_machine.specs.Agenda.{agenda, items_due};
ghost use Rattle.rules_machine.specs.DueItems.{due_items, instant, item_then, next_item};
ghost use Rattle.rules_machine.specs.State.{Machine};
ghost use Rattle.rules_machine.specs.Machine.{bodies_of};
ghost use Rattle.rules_machine.specs.Promises.{RunKeepsBudgets, RunStaysGood};
ghost use Rattle.rules_machine.specs.Dispatch.{head};
ghost use Rattle.rules_machine.specs.Runs.{follow, opening, tick_begun, tick_finished, tick_of, tick_prepared, tick_run};
ghost use Rattle.rules_machine.specs.Turns.{Turn};
ghost use Rattle.rules_machine.specs.Throughout.{HoldsThroughout, turn_after};
ghost use Rattle.laws_machine.specs.Rest.{RunsAreLatest, ServersRest};
ghost use Rattle.rules_machine.specs.WellFormed.{IsWellFormed};

/// Every state of the run of every well formed script is good: that after each number of ticks, and each that a due item leaves with
/// its sweep.
pub fn states_are_good()
    ensures { (script : Script) → IsWellFormed script → RunStaysGood script }
{}

/// In each of these states the events so far and the server of each live sporadic or strict thread keep the law of the budget.
pub fn budgets_are_kept()
    ensures { (script : Script) → IsWellFormed script → RunKeepsBudgets script }
{}

/// In each of these states servers rest: where the thread does not run, or not at its high priority, nothing is consumed that is not planned, and what is consumed can be.
/// Only the thread of the last tick has an open run.
pub fn servers_rest()
    ensures rest { (script : Script) → IsWellFormed script → HoldsThroughout (bodies_of script) (opening script) ServersRest }
    ensures latest { (script : Script) → IsWellFormed script → HoldsThroughout (bodies_of script) (opening script) RunsAreLatest }
{}

/// The states between the items of an instant are those that one item more leaves, with its moves and its sweep, as long as one is due;
/// and they end: behind the items of an instant none is due at it, for each machine, so the bound in the definition leaves none out.
pub fn items_come_one_by_one()
    ensures steps { (script : Script) → (n k : ℕ) → let s = turn_after (bodies_of script) (opening script) n k in turn_after (bodies_of script) (opening script) n (suc k) ≡ item_then (bodies_of script) (next_item s.machine) (λ x. x) s }
    ensures end { (script : Script) → (s : Turn Place) → next_item (instant (bodies_of script) s).machine ≡ None }
{}

/// A tick is what begins it, the items of its instant, and what finishes it from the machine that these leave; the events of the one
/// stand behind those of the other. The second part is what precedes the tick of the head, and then the tick. The account of a server
/// is read off these parts.
pub fn ticks_have_two_parts()
    ensures parts { (script : Script) → (m : Machine Place) → let bodies = bodies_of script in tick_of bodies m ≡ follow (tick_begun bodies m) (tick_finished bodies) }
    ensures finished { (script : Script) → (m : Machine Place) → let bodies = bodies_of script in tick_finished bodies m ≡ follow (tick_prepared bodies m) (tick_run bodies (head m)) }
{}

/// The items of an instant, as the machine finds them, are those of all that is to come whose due tick has come, in the same order.
pub fn items_are_of_the_agenda()
    ensures { (m : Machine Place) → due_items m ≡ items_due m.now (agenda m) }
{}
