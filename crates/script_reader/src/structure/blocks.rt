//! The bodies and blocks that are open.
ghost use Rattle.std.specs.Prelude.{◌≡◌, ◌∷◌, [], IfOk, not, MatchOption};
ghost use Rattle.script_table.specs.Patterns.{same_closer, is_barred};
ghost use Rattle.script_table.specs.Structure.{body_kind, closer_of, closed_by, not_here, step_faults, close_faults, inner, opened, tail_of, is_nil};
ghost use Rattle.script_table.specs.Faults.{least_kind, when};

use script_table::{
    Bar, BlockForm, BodyForm, CloseForm, Closer, FaultKind, Form, NameKind, Opening,
};
use std::alloc::{AllocError, Global};
use std::marker::Model;

pub(crate) fn body_kind(form: BodyForm) -> NameKind
    ensures { result ≡ body_kind form }
{
    match form {
        BodyForm::Handler => NameKind::Handler,
        BodyForm::Cleanup => NameKind::Cleanup,
        _ => NameKind::Thread,
    }
}

pub(crate) fn closer_of(form: BlockForm) -> Closer
    ensures { result ≡ closer_of form }
{
    match form {
        BlockForm::Push => Closer::Pop,
        _ => Closer::End,
    }
}

pub(crate) fn closed_by(form: CloseForm) -> Closer
    ensures { result ≡ closed_by form }
{
    match form {
        CloseForm::End => Closer::End,
        _ => Closer::Pop,
    }
}

fn same_closer(a: Closer, b: Closer) -> bool
    ensures { result ≡ same_closer a b }
{
    match (a, b) {
        (Closer::End, Closer::End) | (Closer::Pop, Closer::Pop) => true,
        _ => false,
    }
}

fn is_barred(bar: Bar, home: NameKind) -> bool
    ensures { result ≡ is_barred bar home }
{
    match (bar, home) {
        (Bar::Handlers, NameKind::Handler) => true,
        (Bar::HandlersAndCleanups, NameKind::Handler) => true,
        (Bar::HandlersAndCleanups, NameKind::Cleanup) => true,
        _ => false,
    }
}

/// The bodies and blocks that are open, seen with the innermost first.
#[derive(Drop)]
pub(crate) struct Blocks {
    list: Vec<Opening>,
}

impl Model for Blocks {
    ghost use Rattle.std.specs.Prelude.{List, reverse};
    ghost use Rattle.script_table.specs.declared.pattern.Opening.{Opening};

    ghost Value = { List Opening };

    ghost view = { λ b. reverse b.list.items };
}

impl Blocks {
    pub(crate) fn new(alloc: Global) -> Blocks
        ensures { result ≡ [] }
    {
        Blocks {
            list: Vec::new(alloc),
        }
    }

    pub(crate) fn is_empty(&self) -> bool
        ensures { result ≡ is_nil self.now }
    {
        self.list.is_empty()
    }

    // The innermost one.
    fn innermost(&self) -> Option<Opening>
        ensures { MatchOption result (self.now ≡ []) (λ o. self.now ≡ o ∷ tail_of self.now) }
    {
        self.list.last().copied()
    }

    fn push(&mut self, opening: Opening) -> Result<(), AllocError>
        ensures { IfOk result (λ _. self.new ≡ opening ∷ self.old) }
    {
        self.list.push(opening)?;
        Ok(())
    }

    fn pop(&mut self)
        ensures { self.new ≡ tail_of self.old }
    {
        self.list.pop();
    }

    fn declaration_fault(&self) -> Option<FaultKind>
        ensures { result ≡ least_kind (when (not (is_nil self.now)) FaultKind.NotHere) }
    {
        if self.is_empty() {
            None
        } else {
            Some(FaultKind::NotHere)
        }
    }

    fn step_fault(&self, bar: Bar) -> Option<FaultKind>
        ensures { result ≡ least_kind (step_faults bar self.now) }
    {
        match self.innermost() {
            None => Some(FaultKind::NotHere),
            Some(opening) => if is_barred(bar, opening.home) {
                Some(FaultKind::NotHere)
            } else {
                None
            },
        }
    }

    fn close_fault(&self, closer: Closer) -> Option<FaultKind>
        ensures { result ≡ least_kind (close_faults closer self.now) }
    {
        match self.innermost() {
            None => Some(FaultKind::StrayClose),
            Some(opening) => if same_closer(opening.closer, closer) {
                None
            } else {
                Some(FaultKind::StrayClose)
            },
        }
    }

    // What is wrong with a line of this form here; `None` exactly where nothing is.
    pub(crate) fn fault(&self, form: Form, bar: Bar) -> Option<FaultKind>
        ensures { result ≡ least_kind (not_here form bar self.now) }
    {
        match form {
            Form::Quantum => self.declaration_fault(),
            Form::Object(_) => self.declaration_fault(),
            Form::Action(_) => self.declaration_fault(),
            Form::Body(_) => self.declaration_fault(),
            Form::Step(_) => self.step_fault(bar),
            Form::Call(_) => self.step_fault(bar),
            Form::Block(_) => self.step_fault(bar),
            Form::Close(form) => self.close_fault(closed_by(form)),
        }
    }

    fn enter(&mut self, closer: Closer) -> Result<(), AllocError>
        ensures { IfOk result (λ _. self.new ≡ inner closer self.old) }
    {
        match self.innermost() {
            None => Ok(()),
            Some(opening) => self.push(Opening {
                home: opening.home,
                closer,
            }),
        }
    }

    pub(crate) fn pass(&mut self, form: Form) -> Result<(), AllocError>
        ensures { IfOk result (λ _. self.new ≡ opened form self.old) }
    {
        match form {
            Form::Body(form) => self.push(Opening {
                home: body_kind(form),
                closer: Closer::End,
            }),
            Form::Block(form) => self.enter(closer_of(form)),
            Form::Close(_) => {
                self.pop();
                Ok(())
            }
            _ => Ok(()),
        }
    }
}
