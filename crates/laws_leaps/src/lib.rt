//! Quiet ticks and leaps of the list machine: where nothing but the running of one thread goes on, so many ticks are one charge.
//!
//! Proved: `quiet_ticks_are_charges`: where nothing happens between two instants, the ticks between them are one charge of the
//! head. `leaps_are_ticks`, `leaps_are_bounded`: a run in leaps is the run in ticks, with at most one leap more than there are
//! eventful instants inside.
//!
//! Each function stands for a law, which its clauses state; none of them does anything when it is called.
#![tactic(auto)]

ghost use Rattle.std.specs.Prelude.{ℕ, ◌≡◌, ◌≤◌, ◌<◌, ◌+◌, ◌-◌, ◌++◌};
ghost use Rattle.words_script.specs.declared.decl.Script.{Script};
ghost use Rattle.rules_bodies.specs.Next.{Place};
ghost use Rattle.rules_machine.specs.Bodies.{Bodies};
ghost use Rattle.rules_machine.specs.State.{Machine};
ghost use Rattle.rules_machine.specs.Machine.{bodies_of, events, machine};
ghost use Rattle.rules_machine.specs.Promises.{busy_between};
ghost use Rattle.rules_machine.specs.WellFormed.{IsWellFormed};
ghost use Rattle.rules_leaps.specs.Leap.{AreLeaps, IsLeap, in_leaps, leap_length};
ghost use Rattle.rules_leaps.specs.Quiet.{AreCharges, IsHandled, IsQuiet, IsQuietBetween, ticks_at_once, handled_at, one_charge, told_with_dispatch};

/// Quiet ticks. Of any machine whose items are handled: where none of the next instants is eventful, so many ticks are what the head
/// runs, charged at once, and they tell of the dispatch alone where that is a change; with the first part of one more tick the charge
/// is one longer. In the run of a script so it is between any two instants, from the first of them with its items handled.
pub fn quiet_ticks_are_charges()
    ensures any { (bodies : Bodies Place) → (m : Machine Place) → IsHandled m → (k : ℕ) → IsQuiet bodies k m → AreCharges bodies k m }
    ensures charged { (script : Script) → IsWellFormed script → (a k : ℕ) → IsQuietBetween script a (a + k) → (j : ℕ) → 1 ≤ j → j < k → machine script (a + j) ≡ ticks_at_once (bodies_of script) j (handled_at script a).machine }
    ensures last { (script : Script) → IsWellFormed script → (a k : ℕ) → IsQuietBetween script a (a + k + 1) → 1 ≤ k → one_charge (bodies_of script) (machine script (a + k)) ≡ ticks_at_once (bodies_of script) (k + 1) (handled_at script a).machine }
    ensures told { (script : Script) → IsWellFormed script → (a k : ℕ) → IsQuietBetween script a (a + k) → (j : ℕ) → 1 ≤ j → j < k → events script (a + j) ≡ events script a ++ told_with_dispatch (handled_at script a).machine.killed (handled_at script a) }
{}

/// A leap goes to the least of so many ticks, the nearest due tick, and the ends of the head's unit, of its round robin interval and of
/// its capacity. It is so many ticks; no eventful instant lies inside, and it ends at one unless it goes as far as it may.
pub fn leaps_are_ticks()
    ensures { (script : Script) → IsWellFormed script → (n most : ℕ) → 1 ≤ most → IsLeap (bodies_of script) most (leap_length (bodies_of script) most (machine script n)) (machine script n) }
{}

/// From one instant of a run to another, ticks and leaps come to the same, and there is at most one leap more than there are eventful
/// instants between the two, and none where they are equal.
pub fn leaps_are_bounded()
    ensures leaps { (script : Script) → IsWellFormed script → (a most : ℕ) → AreLeaps (bodies_of script) most (machine script a) (in_leaps (bodies_of script) most (machine script a)) }
    ensures busy { (script : Script) → IsWellFormed script → (a b : ℕ) → a ≤ b → (in_leaps (bodies_of script) (b - a) (machine script a)).count ≤ busy_between script a b + 1 }
{}
