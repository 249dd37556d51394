//! The flat code of a script.
ghost use Rattle.std.specs.Prelude.{◌≡◌, ℕ, ◌+◌, ◌≤◌, ◌<◌, ◌^◌, [], ◌∷◌, ◌++◌, length, slice_get, All, IfOk, OnOk, Some};
ghost use Rattle.words_script.specs.Block.{Block};
ghost use Rattle.words_script.specs.Tree.{step_count};
ghost use Rattle.rules_bodies.specs.Flat.{IsFlattenable, bodies_of, body_list, flat, flat_form, with_decl};
ghost use Rattle.rules_bodies.specs.Stands.{IsBody};

use crate::flatten::flatten;
use script_code::{Code, Ops};
use std::alloc::{AllocError, Global};
use words_script::{Body, Decl, Kind, Script};

// Takes a body and gives its number.
fn add_body(code: &mut Code, alloc: Global, body: &Body) -> Result<u16, AllocError>
    requires room { length code.old.all < 2 ^ 16 }
    requires short { step_count body.now ≤ 65536 }
    ensures number { IfOk result (λ number. number ≡ length code.old.all) }
    ensures body { OnOk result (code.new ≡ record code.old { all = code.old.all ++ flat 0 body.now ∷ [] }) }
{
    let mut ops = Ops::new(alloc);
    flatten(body, &mut ops)?;
    code.add(ops)
}

// Takes the body of a declaration, where it has one.
fn declare(code: &mut Code, alloc: Global, decl: &Decl) -> Result<(), AllocError>
    requires room { length code.old.all + length (body_list decl.now) ≤ 2 ^ 16 }
    requires short { All (λ body. step_count body ≤ 65536) (body_list decl.now) }
    ensures { OnOk result (code.new ≡ with_decl (flat 0) decl.now code.old) }
{
    match decl {
        Decl::Named(_, kind) => match kind {
            Kind::Thread { body, .. } => {
                let number = add_body(code, alloc, body)?;
                code.add_thread(number)
            }
            Kind::Handler { body } => {
                let number = add_body(code, alloc, body)?;
                code.add_handler(number)
            }
            Kind::Cleanup { body } => {
                let number = add_body(code, alloc, body)?;
                code.add_cleanup(number)
            }
            _ => Ok(()),
        },
        Decl::Action(..) => Ok(()),
    }
}

/// The flat code of a script, whose bodies are numbered in the order of their declarations.
pub fn open(alloc: Global, script: &Script) -> Result<Code, AllocError>
    requires { IsFlattenable (bodies_of script.now.decls).all }
    ensures flat_form { IfOk result (λ code. code ≡ flat_form (bodies_of script.now.decls)) }

    // Each body of the script is there under its number.
    ensures bodies { IfOk result (λ code. (n : ℕ) → (body : Block)
        → slice_get (bodies_of script.now.decls).all n ≡ Some body → IsBody code n body) }
{
    let mut code = Code::new(alloc);
    for decl in script.decls.items() {
        declare(&mut code, alloc, decl)?;
    }
    Ok(code)
}
