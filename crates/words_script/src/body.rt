//! Steps and bodies.
ghost use Rattle.std.specs.Prelude.{◌≡◌};
ghost use Rattle.words_script.specs.Tree.{block_of};

use crate::Call;
use std::marker::Model;
use words_numbers::{ObjId, Res};

/// A step of a body.
#[derive(Drop)]
#[cycle(tree)]
pub enum Step {
    /// Runs for so many ticks, at least one.
    Run(u64),
    /// Makes a call.
    Make(Call),
    /// Sets the register.
    Set(u64),
    /// Adds to the register.
    Add(u64),
    /// Sets the register to the last call's value.
    Take,
    /// Does the body where the last result is `res` (`equal`), or where it is another one.
    Test {
        res: Res,
        equal: bool,
        body: Body,
    },
    /// Does the body so many times, at least once, or forever where there is no number.
    Loop {
        times: Option<u64>,
        body: Body,
    },
    /// Pushes a cleanup handler, does the body, and pops it, and runs it where `run` is set.
    Guard {
        cleanup: ObjId,
        body: Body,
        run: bool,
    },
}

/// The steps of a body or a block. Contracts see it as a tree: a step, and then the rest.
#[derive(Drop)]
#[cycle(tree)]
pub struct Body {
    list: Vec<Step>,
}

impl Model for Body {
    ghost use Rattle.words_script.specs.Block.{Block, Sign, signs, back, back-signs};
    ghost use Rattle.std.specs.Prelude.{List};
    ghost use Rattle.std.specs.Coded.{code_by, codes};

    ghost Value = { Block };

    ghost coded = { code_by (List Sign) (Prim.hlevel codes) signs back back-signs };

    ghost use Rattle.words_script.specs.Tree.{block_of, step_count};

    ghost view = { λ b. block_of b.list.items };

    ghost size = { step_count };

    ghost use Rattle.std.proofs.Common.{arith};
    ghost use Rattle.words_script.specs.Weight.{deep_le};

    ghost size_decreases = { λ b h. omega (arith, deep_le b.list.items) };
}

impl Body {
    /// The body of these steps.
    pub fn new(steps: Vec<Step>) -> Body
        ensures { result ≡ block_of steps.items }
    {
        Body { list: steps }
    }

    /// Its steps, in order.
    pub fn steps(&self) -> &[Step]
        ensures { self.now ≡ block_of result.now }
    {
        self.list.as_slice()
    }
}
