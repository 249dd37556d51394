//! The frames of a thread.
ghost use Rattle.std.specs.Prelude.{◌≡◌, ◌≤◌, [], length};
ghost use Rattle.rules_machine.specs.Threads.{is_signal};
ghost use Rattle.script_code.specs.Fetched.{unit_of};
ghost use Rattle.rules_bodies.specs.Next.{register_limit, ticks_of};
ghost use Rattle.rules_bodies.specs.Stands.{IsPlaced};
ghost use Rattle.rules_machine.specs.Units.{frame_begins, next_of};
ghost use Rattle.rules_flat_code.specs.Placed.{cursor_of};
ghost use Rattle.rules_flat_code.specs.FlatBodies.{flat_bodies, place_of};
ghost use Rattle.kernel_threads.specs.Passing.{HasBegun};
ghost use Rattle.kernel_threads.specs.Starting.{frame_at_start};

use crate::ran::Taken;
use arrayvec::ArrayVec;
use parts_steps::Steps;
use rules_machine::{BodyOf, FrameKind};
use script_code::{Code, Cursor, Fetched};
use std::marker::Model;
use std::sync::ledger::Ledger;
use words_numbers::{Res, Tid};

/// A body that a thread is in, with the ticks left of its present unit.
#[derive(Drop)]
pub struct Frame {
    left: u64,
    kind: FrameKind,
    body: BodyOf,
    at: Cursor,
}

impl Model for Frame {
    ghost use Rattle.rules_machine.specs.State as machine;
    ghost use Rattle.rules_bodies.specs.declared.cursor.Cursor.{Cursor};

    ghost Value = { machine.Frame Cursor };

    ghost use Rattle.rules_machine.specs.Threads.{is_signal};
    ghost use Rattle.kernel_threads.specs.View.{frame_of};

    ghost view = { frame_of };

    ghost use Rattle.std.specs.Prelude.{◌≤◌};
    ghost use Rattle.rules_bodies.specs.Next.{register_limit};

    ghost invariant = { λ f. f.at.register ≤ register_limit };
}

impl Default for Frame {
    fn default() -> Self {
        Frame {
            kind: FrameKind::Main,
            body: BodyOf::Thread(Tid::default()),
            at: Cursor {
                body: 0,
                pc: 0,
                register: 0,
                result: Res::Zero,
                value: 0,
                counts: ArrayVec::new(),
            },
            left: 0,
        }
    }
}

impl Frame {
    /// A frame at the start of its body.
    pub fn new(kind: FrameKind, body: BodyOf, at: Cursor) -> Frame
        requires { at.register ≤ register_limit }
        ensures { result ≡ record { kind = kind; body = body; place = place_of at; register = at.register; result = at.result; value = at.value; left = 0 } }
    {
        Frame {
            kind,
            body,
            at,
            left: 0,
        }
    }

    // It is another frame now, at the start of its body. It is not made elsewhere and moved there.
    #[inline(always)]
    pub(crate) fn restart(&mut self, kind: FrameKind, body: BodyOf, number: u16, value: u64)
        requires { value ≤ register_limit }
        ensures { self.new ≡ frame_at_start kind body number value }
    {
        self.left = 0;
        self.kind = kind;
        self.body = body;
        self.at.body = number;
        self.at.pc = 0;
        self.at.register = value;
        self.at.result = Res::Zero;
        self.at.value = value;
        self.at.counts.clear();
    }

    // It is the same as the other, field by field, with no more passes of loops than that has.
    #[inline(always)]
    pub(crate) fn stand_as(&mut self, other: &Frame)
        ensures { self.new ≡ other.now }
    {
        self.left = other.left;
        self.kind = other.kind;
        self.body = other.body;
        self.at.body = other.at.body;
        self.at.pc = other.at.pc;
        self.at.register = other.at.register;
        self.at.result = other.at.result;
        self.at.value = other.at.value;
        copy_counts(&mut self.at.counts, &other.at.counts);
    }

    pub fn left(&self) -> u64
        ensures { result ≡ self.now.left }
    {
        self.left
    }

    /// The register of its body, at most 2·10^18.
    pub fn register(&self) -> u64
        ensures value { result ≡ self.now.register }
        ensures limit { result ≤ register_limit }
    {
        self.at.register
    }

    pub(crate) fn is_signal(&self) -> bool
        ensures { result ≡ is_signal self.now.kind }
    {
        match self.kind {
            FrameKind::Signal => true,
            _ => false,
        }
    }

    /// Whose body it is in.
    pub fn body(&self) -> BodyOf
        ensures { result ≡ self.now.body }
    {
        self.body
    }

    /// The answer of the last call of its body.
    pub fn result(&self) -> Res
        ensures { result ≡ self.now.result }
    {
        self.at.result
    }

    /// The value of the last call of its body.
    pub fn value(&self) -> u64
        ensures { result ≡ self.now.value }
    {
        self.at.value
    }

    pub fn kind(&self) -> FrameKind
        ensures { result ≡ self.now.kind }
    {
        self.kind
    }

    /// The last call of the body has that answer.
    pub fn answer(&mut self, res: Res, value: u64)
        ensures { self.new ≡ record self.old { result = res; value = value } }
    {
        self.at.result = res;
        self.at.value = value;
    }

    /// So many ticks of its unit are left.
    pub(crate) fn set_left(&mut self, left: u64)
        ensures { self.new ≡ record self.old { left = left } }
    {
        self.left = left;
    }

    /// It is at the last tick of its body.
    pub(crate) fn begin_finish(&mut self)
        ensures { self.new ≡ record self.old { left = 1 } }
    {
        self.left = 1;
    }

    // It begins the next unit of its body.
    pub(crate) fn begin_next(&mut self, code: &Code) -> Fetched
        requires { IsPlaced code.now (cursor_of self.old) }
        ensures unit { unit_of code.now result ≡ (next_of (flat_bodies code.now) self.old).unit }
        ensures moved { self.new ≡ frame_begins (next_of (flat_bodies code.now) self.old) self.old }
    {
        let unit = code.fetch(&mut self.at);
        self.left = ticks_of(code, &unit);
        unit
    }

    // It begins the next unit of its body, past each one that only takes time and is over before so many ticks are. Each of these is a step.
    #[inline(always)]
    pub(crate) fn begin<L: Ledger>(&mut self, code: &Code, most: u64, steps: &mut Steps<L>) -> Taken
        requires placed { IsPlaced code.now (cursor_of self.old) }
        requires whole { self.old.left ≡ 0 }
        ensures { HasBegun code.now most result self.old self.new steps.old steps.new }
    {
        let mut rest = most;
        let body = code.units(self.at.body);
        'units: loop {
            let unit = body.fetch(&mut self.at);
            match unit {
                Fetched::Run(n) if 0 < n && n < rest => rest -= n,
                Fetched::Jump if 1 < rest => rest -= 1,
                _ => {
                    let left = ticks_of(code, &unit);
                    self.left = left;
                    let passed = most - rest;
                    return Taken { unit, passed, left };
                }
            }
            steps.tick();
        }
    }
}

// The passes left of loops are the others.
#[inline(always)]
fn copy_counts(counts: &mut ArrayVec<u64, 16>, others: &ArrayVec<u64, 16>)
    ensures { counts.new ≡ others.now }
{
    counts.clear();
    if !others.is_empty() {
        append_counts(counts, others.as_slice());
    }
}

// The passes left of loops are those.
#[inline(never)]
fn append_counts(counts: &mut ArrayVec<u64, 16>, others: &[u64])
    requires none { counts.old.items ≡ [] }
    requires room { length others.now ≤ 16 }
    ensures { counts.new.items ≡ others.now }
{
    match counts.try_extend_from_slice(others) {
        Ok(()) => {}
        Err(_) => unreachable!(),
    }
}

// How many ticks a unit takes.
#[inline(always)]
fn ticks_of(code: &Code, unit: &Fetched) -> u64
    ensures { result ≡ ticks_of (unit_of code.now unit.now) }
{
    // the clauses alone speak of it
    let _ = code;
    match unit {
        Fetched::Run(n) => *n,
        _ => 1,
    }
}
