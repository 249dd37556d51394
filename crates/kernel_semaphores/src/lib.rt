//! The values of semaphores. Who waits for them is kept elsewhere.
//!
//! Proved: each call changes the value as the machine changes it, and none is ever above 32,767.
//!
//! Contracts see the list of values, each at most 32,767, the greatest that a semaphore may have (`SEM_VALUE_MAX`).
#![tactic(auto)]

ghost use Rattle.std.specs.Prelude.{◌≡◌, ◌≤◌, ◌<◌, ◌++◌, All, IfOk, length, option_to_list, pred, slice_index, suc};
ghost use Rattle.rules_machine.specs.Declarations.{named, semaphore_kind, semaphores_of};
ghost use Rattle.rules_machine.specs.Lists.{changed_at};
ghost use Rattle.rules_machine.specs.Semaphores.{semaphore_limit};
ghost use Rattle.rules_flat_code.specs.Runnable.{HasValue};

mod value;

use std::alloc::{AllocError, Global};
use std::marker::Model;
use value::SemaphoreValue;
use words_numbers::ObjId;
use words_script::{Decl, Kind, Script};

/// The semaphores of a script, by number.
#[derive(Drop)]
pub struct Semaphores {
    values: Vec<SemaphoreValue>,
}

impl Model for Semaphores {
    ghost use Rattle.std.specs.Prelude.{List, ℕ};

    ghost Value = { List ℕ };

    ghost view = { λ s. s.values.items };
}

// A semaphore that is declared there is put behind the others.
fn add_value(values: &mut Vec<SemaphoreValue>, decl: &Decl) -> Result<(), AllocError>
    requires { HasValue decl.now }
    ensures { IfOk result (λ _. values.new.items ≡ values.old.items ++ option_to_list (named semaphore_kind decl.now)) }
{
    match decl {
        Decl::Named(_, Kind::Sem { value }) => {
            values.push(SemaphoreValue::new(*value))?;
            Ok(())
        }
        _ => Ok(()),
    }
}

impl Semaphores {
    /// The semaphores of a script, at their first values.
    pub fn open(alloc: Global, script: &Script) -> Result<Semaphores, AllocError>
        requires { All HasValue script.now.decls }
        ensures { IfOk result (λ s. s ≡ semaphores_of script.now) }
    {
        let mut values = Vec::new(alloc);
        for decl in script.decls.items() {
            add_value(&mut values, decl)?;
        }
        Ok(Semaphores { values })
    }

    /// How many semaphores there are.
    pub fn count(&self) -> usize
        ensures { result ≡ length self.now }
    {
        self.values.len()
    }

    /// The value, at most 32,767.
    pub fn value(&self, k: ObjId) -> u16
        requires { k < length self.now }
        ensures value { result ≡ slice_index self.now k }
        ensures limit { result ≤ semaphore_limit }
    {
        self.values[k.get() as usize].get()
    }

    /// The value, which is above 0, falls by one.
    pub fn take(&mut self, k: ObjId)
        requires known { k < length self.old }
        requires above { 0 < slice_index self.old k }
        ensures { self.new ≡ changed_at 0 k pred self.old }
    {
        self.values[k.get() as usize].fall();
    }

    /// The value, which is below 32,767, rises by one.
    pub fn post(&mut self, k: ObjId)
        requires known { k < length self.old }
        requires below { slice_index self.old k < semaphore_limit }
        ensures { self.new ≡ changed_at 0 k suc self.old }
    {
        self.values[k.get() as usize].rise();
    }
}
