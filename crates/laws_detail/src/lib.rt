//! What `detail` tells, look by look. There is no code here: laws, and their proofs.
//!
//! Proved: `facts_rest_in_quiet_ticks`, `facts_rest_within_a_leap`: within a leap facts change at the instant behind its start alone, so
//! that two looks tell all of them. `facts_stay_in_a_plain_tick`, `none_changes_after_a_plain_tick`: nor do they there, where no server
//! plans as the leap begins and its thread is not ending, so that one look is enough. `facts_stay_where_ticks_only_take_time`,
//! `none_changes_behind_leaps_that_take_time`: nor behind a leap that begins so, where its ticks only take time, so that none is needed
//! though a unit is complete. `detail_goes_on`: what is told of a run goes on with what happens, and with the facts of the instants that
//! are passed. `ticks_happen_in_time`: what begins a tick happens at its instant, and what ends it one tick later. `leaps_are_told`: what
//! is told of a leap is what begins it, two looks, and what ends it. `facts_keep_their_subjects`: facts of machines with as many threads
//! and objects have the same subjects. `flat_code_tells_the_same`: the facts of each instant over flat code are the script's.
//! `queues_stay_as_deep`: each message queue of a run is as deep as it is declared.
//!
//! Each function stands for a law, which its clause states. None of them does anything when it is called.
#![tactic(auto)]

ghost use Rattle.std.specs.Prelude.{ℕ, ◌≤◌};
ghost use Rattle.words_script.specs.declared.decl.Script.{Script};
ghost use Rattle.rules_bodies.specs.Next.{Place};
ghost use Rattle.rules_bodies.specs.declared.cursor.Cursor.{Cursor};
ghost use Rattle.rules_machine.specs.Bodies.{Bodies};
ghost use Rattle.rules_machine.specs.Machine.{bodies_of, machine};
ghost use Rattle.rules_machine.specs.Runs.{opening};
ghost use Rattle.rules_machine.specs.State.{Machine};
ghost use Rattle.rules_machine.specs.Throughout.{HoldsThroughout};
ghost use Rattle.rules_machine.specs.WellFormed.{IsWellFormed};
ghost use Rattle.rules_moves.specs.UnitRanges.{BodiesFit};
ghost use Rattle.rules_leaps.specs.Quiet.{IsHandled, IsQuiet};
ghost use Rattle.laws_detail.specs.Depths.{HasDepthsOf};
ghost use Rattle.laws_detail.specs.Flat.{FlatTellsTheSame};
ghost use Rattle.laws_detail.specs.Leaps.{LeapsAreTold};
ghost use Rattle.laws_detail.specs.Looks.{IsTold, TickInTime};
ghost use Rattle.laws_detail.specs.Rests.{BeginsPlainly, FactsRest, HeadOnlyTakesTime, NoneChangesAfter, NoneChangesBehind, RestsAt, StaysAt, StaysBehind};
ghost use Rattle.laws_detail.specs.Subjects.{HaveSameSizes, HaveSameSubjects};

/// Of any machine whose items are handled: where none of the next instants is eventful, the facts of each of them are those of the first
/// of them.
pub fn facts_rest_in_quiet_ticks()
    ensures { (bodies : Bodies Place) → (script : Script) → (m : Machine Place) → IsHandled m → (k : ℕ) → IsQuiet bodies k m → (i : ℕ) → 1 ≤ i → i ≤ k → RestsAt bodies script i m }
{}

/// Within a leap of a run facts change at the instant behind its start alone: where an ending thread begins a cleanup handler in the
/// first tick, or a server plans as the leap begins. So `detail` tells of the first two instants of a leap all that it tells of its
/// instants.
pub fn facts_rest_within_a_leap()
    ensures { (script : Script) → IsWellFormed script → (most : ℕ) → (n : ℕ) → 1 ≤ most → FactsRest script most n }
{}

/// Of any machine whose items are handled: where its tick begins plainly, and the next instant is not eventful, the facts one tick on are
/// those of now.
pub fn facts_stay_in_a_plain_tick()
    ensures { (bodies : Bodies Place) → (script : Script) → (m : Machine Place) → IsHandled m → BeginsPlainly m → IsQuiet bodies 1 m → StaysAt bodies script m }
{}

/// So of a run: where no server plans as the tick from an instant begins, and its thread is not ending, and the next instant is not
/// eventful, no fact changes there.
pub fn none_changes_after_a_plain_tick()
    ensures { (script : Script) → IsWellFormed script → (n : ℕ) → NoneChangesAfter script n }
{}

/// Of any machine whose items are handled: where its tick begins plainly, and so many ticks of the head only take time, since the unit
/// that they are of does nothing at its end, and they use up neither an interval nor a capacity, the facts behind them are those of now,
/// unless something is due there.
pub fn facts_stay_where_ticks_only_take_time()
    ensures { (bodies : Bodies Place) → (script : Script) → (m : Machine Place) → IsHandled m → BeginsPlainly m → (k : ℕ) → HeadOnlyTakesTime bodies k m → StaysBehind bodies script k m }
{}

/// So of a run: behind a leap that begins plainly and only takes time no fact changes, unless something is due there, though a unit is
/// complete. So `detail` does not look there.
pub fn none_changes_behind_leaps_that_take_time()
    ensures { (script : Script) → IsWellFormed script → (most : ℕ) → (n : ℕ) → 1 ≤ most → NoneChangesBehind script most n }
{}

/// What `detail` tells of a run goes on line by line: with what happens at the instant that is reached, and with the facts of each
/// instant that is passed. At the end of the run the closing lines follow.
pub fn detail_goes_on()
    ensures { (script : Script) → IsTold script }
{}

/// What begins a tick of a run happens at its instant: the items, and what precedes the tick of the head. What ends it happens one tick
/// later. So `detail` has told all that happens at an instant once the tick that follows is prepared.
pub fn ticks_happen_in_time()
    ensures { (script : Script) → IsWellFormed script → (n : ℕ) → TickInTime (bodies_of script) (machine script n) }
{}

/// What `detail` tells of a leap: behind what was told come the lines of what begins its first tick, the facts that two looks tell, at
/// its start and one tick behind it, and the lines of the rest of its events. So a run is told leap by leap, whatever its horizon.
pub fn leaps_are_told()
    ensures { (script : Script) → IsWellFormed script → LeapsAreTold script }
{}

/// The facts of two machines that have as many lists, threads and objects of each kind have the same subjects in the same order.
pub fn facts_keep_their_subjects()
    ensures { (script : Script) → (m : Machine Place) → (n : Machine Place) → HaveSameSizes m n → HaveSameSubjects script m n }
{}

/// The facts of each instant of the machine over the flat code of a script, and the events up to it, are the script's.
pub fn flat_code_tells_the_same()
    ensures { (script : Script) → (n : ℕ) → FlatTellsTheSame script n }
{}

/// Each message queue of a run is as deep as its script declares it: at each instant, and between the items of one.
pub fn queues_stay_as_deep()
    ensures { (bodies : Bodies Cursor) → BodiesFit bodies → (script : Script) → IsWellFormed script → HoldsThroughout bodies (opening script) (HasDepthsOf script) }
{}
