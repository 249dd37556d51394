//! The units of one body.
ghost use Rattle.std.specs.Prelude.{◌≡◌, ◌≤◌, ◌<◌, ◌^◌, drop, length};
ghost use Rattle.words_script.specs.Block.{Block};
ghost use Rattle.rules_bodies.specs.Fetch.{fetched, found_in, ops_of};
ghost use Rattle.script_code.specs.Fetched.{StandsIn, unit_in, unit_of};
ghost use Rattle.rules_bodies.specs.Next.{Place};
ghost use Rattle.script_code.specs.Ready.{IsReady};
ghost use Rattle.rules_bodies.specs.Stands.{Fetches, IsBody, IsPlaced, Stands};

use crate::code::carry_out;
use crate::ops::{Ops, Packed};
use crate::{Code, Cursor, Fetched};
use std::marker::Model;
use words_script::Call;

/// The units of one body, whose operations are looked up once. Contracts see the code, and the number of the body in it.
#[derive(Drop)]
pub struct Units<'a> {
    code: &'a Code,
    body: u16,
    packed: &'a [Packed],
    calls: &'a [Call],
}

impl<'a> Model for Units<'a> {
    ghost use Rattle.std.specs.Prelude.{◌≡◌};
    ghost use Rattle.rules_bodies.specs.Fetch.{OneBody, ops_of};
    ghost use Rattle.script_code.specs.Packed.{all_unpacked};

    ghost Value = { OneBody };

    ghost view = { λ u. record { code = u.code.now; body = u.body } };

    ghost invariant = { λ u. all_unpacked u.calls.now u.packed.now ≡ ops_of u.code.now u.body };
}

impl<'a> Units<'a> {
    #[inline(always)]
    pub(crate) fn new(code: &'a Code, body: u16, ops: &'a Ops) -> Units<'a>
        requires { ops.now ≡ ops_of code.now body }
        ensures { result ≡ record { code = code.now; body = body } }
    {
        let (packed, calls) = ops.parts();
        Units {
            code,
            body,
            packed,
            calls,
        }
    }

    /// The next unit of the body, as `Code::fetch` gives it for a cursor that stands in that body.
    #[inline(always)]
    pub fn fetch(&self, at: &mut Cursor) -> Fetched
        requires own { at.old.body ≡ self.now.body }
        requires placed { IsPlaced self.now.code at.old }
        ensures fetched { fetched self.now.code at.old ≡ (at.new, unit_of self.now.code result) }

        // It is the next unit of the tree, whichever tree the flat form is of.
        ensures next { (tree : Block) → (place : Place) → IsBody self.now.code at.old.body tree → Stands tree place at.old
            → Fetches tree place at.old at.new (unit_of self.now.code result) }

        ensures placed { IsPlaced self.now.code at.new }
        ensures few { length at.new.counts.items ≤ 15 }
    {
        self.search(at)
    }

    // The first unit of the operations ahead of a cursor, which moves behind it.
    #[inline(always)]
    fn search(&self, at: &mut Cursor) -> Fetched
        requires ready { IsReady (drop at.old.pc (ops_of self.now.code self.now.body)) at.old }
        requires within { at.old.pc ≤ length (ops_of self.now.code self.now.body) }
        requires short { length (ops_of self.now.code self.now.body) < 2 ^ 32 }
        ensures found { found_in (drop at.old.pc (ops_of self.now.code self.now.body)) 0 at.old ≡ (at.new, unit_in (ops_of self.now.code self.now.body) result) }
        ensures inside { StandsIn at.old.body result }
    {
        while let Some(op) = self.packed.get(at.pc as usize) {
            let number = at.pc;
            at.pc += 1;
            if let Some(unit) = carry_out(at, op, number) {
                return unit;
            }
        }
        Fetched::Finish
    }
}
