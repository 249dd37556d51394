//! The operations of a body as they are kept.
ghost use Rattle.std.specs.Prelude.{◌≡◌, ◌<◌, [], ◌∷◌, ◌++◌, length, slice_get, slice_set, unwrap_or, IfSome, OnOk, OnErr};
ghost use Rattle.words_script.specs.declared.call.Call.TheVariants.{Yield};
ghost use Rattle.rules_bodies.specs.declared.op.Op.TheVariants.{Make, Test};
ghost use Rattle.script_code.specs.Fetched.{call_at};
ghost use Rattle.script_code.specs.Packed.{IsIn, all_unpacked, unpacked};

use crate::ShortCall;
use std::alloc::{AllocError, Global};
use std::marker::Model;
use words_numbers::Res;
use words_script::Call;

/// An operation in 16 bytes. A short call is kept whole; any other, which takes 48 bytes by itself, is told by its number in the table of
/// its body.
#[derive(Clone, Copy)]
pub enum Packed {
    Run(u64),
    Make(usize),
    Short(ShortCall),
    Set(u64),
    Add(u64),
    Take,
    Test { res: Res, equal: bool, skip: u32 },
    Begin(u64),
    Repeat { first: u32 },
    Again { first: u32 },
}

/// The operations of a body. Contracts see them as a list.
#[derive(Drop)]
pub struct Ops {
    packed: Vec<Packed>,
    calls: Vec<Call>,
}

impl Model for Ops {
    ghost use Rattle.std.specs.Prelude.{List};
    ghost use Rattle.rules_bodies.specs.declared.op.Op.{Op};

    ghost Value = { List Op };

    ghost use Rattle.script_code.specs.Packed.{AreIn, all_unpacked};

    ghost view = { λ o. all_unpacked o.calls.items o.packed.items };

    ghost invariant = { λ o. AreIn o.calls.items o.packed.items };
}

impl Ops {
    /// None.
    pub fn new(alloc: Global) -> Ops
        ensures { result ≡ [] }
    {
        Ops {
            packed: Vec::new(alloc),
            calls: Vec::new(alloc),
        }
    }

    /// How many they are.
    pub fn len(&self) -> usize
        ensures { result ≡ length self.now }
    {
        self.packed.len()
    }

    /// Appends an operation that the table of calls has no part in: any but one of a call that stands there.
    #[inline(always)]
    pub fn push(&mut self, packed: Packed) -> Result<(), AllocError>
        requires { IsIn [] packed }
        ensures { OnOk result (self.new ≡ self.old ++ unpacked [] packed ∷ []) }
    {
        append(&mut self.packed, packed)?;
        Ok(())
    }

    /// Appends a call.
    #[inline(always)]
    pub fn push_call(&mut self, call: &Call) -> Result<(), AllocError>
        ensures { OnOk result (self.new ≡ self.old ++ Make call.now ∷ []) }
    {
        if let Some(short) = ShortCall::of(call) {
            return self.push(Packed::Short(short));
        }
        let number = self.calls.len();
        append(&mut self.calls, *call)?;
        append(&mut self.packed, Packed::Make(number))?;
        Ok(())
    }

    /// Puts a test in the place of an operation.
    pub fn set_test(&mut self, at: usize, res: Res, equal: bool, skip: u32)
        requires { at < length self.old }
        ensures { self.new ≡ slice_set self.old at (Test res equal skip) }
    {
        self.packed[at] = Packed::Test { res, equal, skip };
    }

    // The call of that number; none where the operation is no call.
    #[inline(always)]
    pub(crate) fn call(&self, number: usize) -> Option<Call>
        ensures { unwrap_or result Yield ≡ call_at (slice_get self.now number) }
    {
        match self.packed.get(number)? {
            Packed::Make(call) => Some(self.calls[*call]),
            Packed::Short(short) => Some(short.call()),
            _ => None,
        }
    }

    // The call of that number, where the table has it; none where the operation is no call, or keeps its call whole.
    #[inline(always)]
    pub(crate) fn call_in_table(&self, number: usize) -> Option<&Call>
        ensures { IfSome result (λ call. call.now ≡ call_at (slice_get self.now number)) }
    {
        match self.packed.get(number)? {
            Packed::Make(call) => Some(&self.calls[*call]),
            _ => None,
        }
    }

    // What is kept of each operation, and the table of the calls.
    #[inline(always)]
    pub(crate) fn parts(&self) -> (&[Packed], &[Call])
        ensures { all_unpacked result.1.now result.0.now ≡ self.now }
    {
        (self.packed.as_slice(), self.calls.as_slice())
    }
}

// Appends an item to a list.
#[inline(always)]
fn append<T: Copy>(list: &mut Vec<T>, item: T) -> Result<(), AllocError>
    ensures appended { OnOk result (list.new.items ≡ list.old.items ++ item ∷ []) }
    ensures unchanged { OnErr result (list.new.items ≡ list.old.items) }
{
    list.reserve(1)?;
    list.push_reserved(item);
    Ok(())
}
