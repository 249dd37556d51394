//! Trees of steps into flat operations.
ghost use Rattle.std.specs.Prelude.{◌≡◌, ◌+◌, ◌<◌, ◌^◌, [], ◌∷◌, ◌++◌, length, OnOk};
ghost use Rattle.words_script.specs.Tree.{block_of};
ghost use Rattle.rules_bodies.specs.Flat.{flat, op_number};

use script_code::{Ops, Packed};
use std::alloc::AllocError;
use words_script::{Body, Call, Step};

// Appends the operations of a step.
#[cycle(flatten)]
fn flatten_step(step: &Step, ops: &mut Ops) -> Result<(), AllocError>
    requires { length ops.old + op_number (block_of (step.now ∷ [])) < 2 ^ 32 }
    ensures { OnOk result (ops.new ≡ ops.old ++ flat (length ops.old) (block_of (step.now ∷ []))) }
{
    match step {
        Step::Run(n) => ops.push(Packed::Run(*n)),
        Step::Make(call) => ops.push_call(call),
        Step::Set(n) => ops.push(Packed::Set(*n)),
        Step::Add(n) => ops.push(Packed::Add(*n)),
        Step::Take => ops.push(Packed::Take),
        Step::Test { res, equal, body } => {
            let at = ops.len();
            ops.push(Packed::Test {
                res: *res,
                equal: *equal,
                skip: 0,
            })?;
            flatten(body, ops)?;
            let skip = (ops.len() - at - 1) as u32;
            ops.set_test(at, *res, *equal, skip);
            Ok(())
        }
        Step::Loop { times, body } => match times {
            Some(n) => {
                ops.push(Packed::Begin(*n))?;
                let first = ops.len() as u32;
                flatten(body, ops)?;
                ops.push(Packed::Repeat { first })
            }
            None => {
                let first = ops.len() as u32;
                flatten(body, ops)?;
                ops.push(Packed::Again { first })
            }
        },
        Step::Guard { cleanup, body, run } => {
            ops.push_call(&Call::Push(*cleanup))?;
            flatten(body, ops)?;
            ops.push_call(&Call::Pop(*run))
        }
    }
}

/// Appends the operations of a body.
#[cycle(flatten)]
pub(crate) fn flatten(body: &Body, ops: &mut Ops) -> Result<(), AllocError>
    requires { length ops.old + op_number body.now < 2 ^ 32 }
    ensures { OnOk result (ops.new ≡ ops.old ++ flat (length ops.old) body.now) }
{
    for step in body.steps() {
        flatten_step(step, ops)?;
    }
    Ok(())
}
