//! The flat code, and the next unit of a body.
ghost use Rattle.std.specs.Prelude.{◌≡◌, List, ◌+◌, ◌≤◌, ◌<◌, ◌^◌, [], ◌∷◌, ◌++◌, length, slice_index, unwrap_or, IfOk, IfSome, OnOk, Some};
ghost use Rattle.words_script.specs.Block.{Block};
ghost use Rattle.words_script.specs.declared.call.Call.{Call};
ghost use Rattle.words_script.specs.declared.call.Call.TheVariants.{Yield};
ghost use Rattle.rules_bodies.specs.Next.{Place, body_start, register_limit};
ghost use Rattle.rules_bodies.specs.Fetch.{carried_out, innermost, most_skipped, pass_ended, started, fetched};
ghost use Rattle.script_code.specs.Fetched.{call_of, told, unit_of};
ghost use Rattle.script_code.specs.Packed.{unpacked};
ghost use Rattle.rules_bodies.specs.Stands.{IsBody, Stands, IsPlaced, Fetches};

use crate::next::{capped, holds};
use crate::ops::{Ops, Packed};
use crate::{CallPlace, Cursor, Fetched, Units};
use arrayvec::ArrayVec;
use std::alloc::{AllocError, Global};
use std::marker::Model;
use words_numbers::{ObjId, Res, Tid};
use words_script::Call;

/// The bodies of a script as flat code. Contracts see it as the operations of each body, and the numbers of the bodies of the
/// threads, handlers and cleanup handlers.
#[derive(Drop)]
pub struct Code {
    bodies: Vec<Ops>,
    threads: Vec<u16>,
    handlers: Vec<u16>,
    cleanups: Vec<u16>,
}

impl Model for Code {
    ghost use Rattle.std.specs.Prelude.{List};
    ghost use Rattle.rules_bodies.specs.Flat.{NumberedBodies};
    ghost use Rattle.rules_bodies.specs.declared.op.Op.{Op};

    ghost Value = { NumberedBodies (List Op) };

    ghost view = { λ c. record {
      all = c.bodies.items;
      threads = c.threads.items;
      handlers = c.handlers.items;
      cleanups = c.cleanups.items;
    } };
}

impl Code {
    /// Without a body.
    pub fn new(alloc: Global) -> Code
        ensures { result ≡ record { all = []; threads = []; handlers = []; cleanups = [] } }
    {
        Code {
            bodies: Vec::new(alloc),
            threads: Vec::new(alloc),
            handlers: Vec::new(alloc),
            cleanups: Vec::new(alloc),
        }
    }

    /// Takes the operations of a body, and gives its number.
    pub fn add(&mut self, ops: Ops) -> Result<u16, AllocError>
        requires { length self.old.all < 2 ^ 16 }
        ensures number { IfOk result (λ number. number ≡ length self.old.all) }
        ensures body { OnOk result (self.new ≡ record self.old { all = self.old.all ++ ops ∷ [] }) }
    {
        let number = self.bodies.len() as u16;
        self.bodies.reserve(1)?;
        self.bodies.push_reserved(ops);
        Ok(number)
    }

    /// The next thread has the body of that number.
    pub fn add_thread(&mut self, body: u16) -> Result<(), AllocError>
        ensures { OnOk result (self.new ≡ record self.old { threads = self.old.threads ++ body ∷ [] }) }
    {
        self.threads.push(body)?;
        Ok(())
    }

    /// The next handler has the body of that number.
    pub fn add_handler(&mut self, body: u16) -> Result<(), AllocError>
        ensures { OnOk result (self.new ≡ record self.old { handlers = self.old.handlers ++ body ∷ [] }) }
    {
        self.handlers.push(body)?;
        Ok(())
    }

    /// The next cleanup handler has the body of that number.
    pub fn add_cleanup(&mut self, body: u16) -> Result<(), AllocError>
        ensures { OnOk result (self.new ≡ record self.old { cleanups = self.old.cleanups ++ body ∷ [] }) }
    {
        self.cleanups.push(body)?;
        Ok(())
    }

    /// The number of a thread's body.
    pub fn thread_body(&self, t: Tid) -> u16
        requires { t < length self.now.threads }
        ensures { result ≡ slice_index self.now.threads t }
    {
        self.threads[t.get() as usize]
    }

    /// The number of a handler's body.
    pub fn handler_body(&self, h: ObjId) -> u16
        requires { h < length self.now.handlers }
        ensures { result ≡ slice_index self.now.handlers h }
    {
        self.handlers[h.get() as usize]
    }

    /// The number of a cleanup handler's body.
    pub fn cleanup_body(&self, u: ObjId) -> u16
        requires { u < length self.now.cleanups }
        ensures { result ≡ slice_index self.now.cleanups u }
    {
        self.cleanups[u.get() as usize]
    }

    /// The beginning of a body, with the register and the last call's value set to `value`, and the result zero.
    pub fn start(&self, body: u16, value: u64) -> Cursor
        requires exists { body < length self.now.all }
        requires in_limit { value ≤ register_limit }
        ensures cursor { result ≡ started body value }
        ensures stands { (tree : Block) → IsBody self.now body tree → Stands tree body_start result }
        ensures placed { (tree : Block) → IsBody self.now body tree → IsPlaced self.now result }
    {
        Cursor {
            body,
            pc: 0,
            register: value,
            result: Res::Zero,
            value,
            counts: ArrayVec::new(),
        }
    }

    /// The call that stands at a place, which a fetched unit told; `yield` where none does.
    #[inline(always)]
    pub fn call(&self, place: &CallPlace) -> Call
        ensures { result ≡ call_of self.now place.now }
    {
        match self.call_at(place) {
            Some(call) => call,
            None => Call::Yield,
        }
    }

    /// The same, where it stands in the table of its body, as all calls do but the short ones. What is told is not copied.
    /// The contract lets it answer `None` more often.
    #[inline(always)]
    pub fn call_in_table(&self, place: &CallPlace) -> Option<&Call>
        ensures { IfSome result (λ call. call.now ≡ call_of self.now place.now) }
    {
        self.bodies.get(place.body)?.call_in_table(place.op)
    }

    // The same, where one does.
    #[inline(always)]
    fn call_at(&self, place: &CallPlace) -> Option<Call>
        ensures { unwrap_or result Yield ≡ call_of self.now place.now }
    {
        self.bodies.get(place.body)?.call(place.op)
    }

    /// The units of a body.
    #[inline(always)]
    pub fn units(&self, body: u16) -> Units<'_>
        requires exists { body < length self.now.all }
        ensures { result ≡ record { code = self.now; body = body } }
    {
        Units::new(self, body, &self.bodies[body as usize])
    }

    /// The next unit of the body that the cursor stands in, and the cursor moves behind it: the operations that take no time are
    /// carried out on the way. At a body's end the unit is always `Finish`. No memory is taken. The cursor is one that `start` gave,
    /// and that only `fetch` moved; its result and its value may have been replaced.
    #[inline(always)]
    pub fn fetch(&self, at: &mut Cursor) -> Fetched
        requires { IsPlaced self.now at.old }
        ensures fetched { fetched self.now at.old ≡ (at.new, unit_of self.now result) }

        // It is the next unit of the tree, whichever tree the flat form is of.
        ensures next { (tree : Block) → (place : Place) → IsBody self.now at.old.body tree → Stands tree place at.old
            → Fetches tree place at.old at.new (unit_of self.now result) }

        ensures placed { IsPlaced self.now at.new }
        ensures few { length at.new.counts.items ≤ 15 }
    {
        self.units(at.body).fetch(at)
    }
}

// Jumps back.
fn jump(at: &mut Cursor, first: u32) -> Fetched
    ensures place { at.new ≡ record at.old { pc = first } }
    ensures unit { result ≡ Fetched.Jump }
{
    at.pc = first;
    Fetched::Jump
}

// Ends a pass of the innermost counted loop: whether another one is left.
#[inline(never)]
fn end_pass(at: &mut Cursor) -> bool
    requires { length at.old.counts.items ≤ 15 }
    ensures { pass_ended (innermost at.old.counts.items) at.old ≡ (at.new, result) }
{
    match at.counts.pop() {
        Some(passes) if passes > 1 => {
            at.counts.push(passes - 1);
            true
        }
        _ => false,
    }
}

// Carries out the operation of that number, behind which the cursor stands: the unit that it gives, or none where it takes no time.
#[inline(always)]
pub(crate) fn carry_out(at: &mut Cursor, op: &Packed, number: u32) -> Option<Fetched>
    requires few { length at.old.counts.items ≤ 15 }
    requires room { at.old.pc + most_skipped (unpacked [] op.now) < 2 ^ 32 }
    ensures { (calls : List Call) → told at.old.body number op.now (carried_out (unpacked calls op.now) at.old) ≡ (at.new, result) }
{
    match *op {
        Packed::Run(n) => return Some(Fetched::Run(n)),
        Packed::Short(short) => return Some(Fetched::Short(short)),
        Packed::Make(_) => {
            return Some(Fetched::Make(CallPlace {
                body: at.body as usize,
                op: number as usize,
            }));
        }
        Packed::Set(n) => at.register = capped(n),
        Packed::Add(n) => at.register = capped(at.register.saturating_add(n)),
        Packed::Take => at.register = capped(at.value),
        Packed::Test { res, equal, skip } => {
            if !holds(res, equal, at.result) {
                at.pc += skip;
            }
        }
        Packed::Begin(times) => at.counts.push(times),
        Packed::Repeat { first } => {
            if end_pass(at) {
                return Some(jump(at, first));
            }
        }
        Packed::Again { first } => return Some(jump(at, first)),
    }
    None
}
