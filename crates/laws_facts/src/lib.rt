//! What is told of an instant over flat code is what is told of it over the trees of the script. There is no code here: two laws, and
//! their proofs.
//!
//! Proved: `facts_tell_no_place`: the facts of a state are the same whatever its places are. `flat_code_shows_the_same`: the text that
//! is shown of each instant of the machine over the flat code of a script is the script's.
#![tactic(auto)]

ghost use Rattle.words_script.specs.declared.decl.Script.{Script};
ghost use Rattle.rules_bodies.specs.Next.{Place};
ghost use Rattle.rules_machine.specs.State.{Machine};
ghost use Rattle.laws_facts.specs.Shows.{FlatShows, TellsNoPlace};

/// The facts of a machine whose places are written as places in the flat code of a script are those of the machine.
#[tactic(auto, using(crate::proofs::Shows::tells_no_place))]
pub fn facts_tell_no_place()
    ensures { (script : Script) → (m : Machine Place) → TellsNoPlace script m }
{}

/// The text that is shown of an instant of the machine over the flat code of a script is that of the script's machine.
#[tactic(auto, using(crate::proofs::Shows::flat_shows))]
pub fn flat_code_shows_the_same()
    ensures { FlatShows }
{}
