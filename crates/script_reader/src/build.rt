//! The script that statements say, where no phase has a fault.
mod calls;
mod meaning;

ghost use Rattle.std.specs.Prelude.{◌≡◌, ◌∷◌, ◌++◌, [], IfOk, MatchOption, unwrap_or};
ghost use Rattle.std.specs.Option.{option_map};
ghost use Rattle.words_script.specs.declared.body.Step.TheVariants as step;
ghost use Rattle.script_table.specs.Patterns.{greatest};
ghost use Rattle.script_table.specs.Operands.{number_in};
ghost use Rattle.script_table.specs.Calls.{call_of};
ghost use Rattle.script_table.specs.Meaning.{object_decl, action_decl};
ghost use Rattle.script_table.specs.Build.{Opened, Built, with_decl, with_step, close_one, closed, opens, after, nothing_built, script_of};

use crate::names::NameIndex;
use crate::operands::number_in;
use crate::structure::statement::{LineWords, Statement};
use crate::{Body, Call, Decl, Decls, Script, Step};
use calls::call_of;
use meaning::{action_decl, block_step, body_decl, object_decl, plain_step, runs_cleanup};
use script_table::{ActionForm, CallForm, Form, ObjectForm, ThreadCall, Version};
use std::alloc::{AllocError, Global};
use std::marker::Model;
use words_numbers::GREATEST_NUMBER;

// A body or block that is open.
#[derive(Drop)]
struct OpenBlock<'a> {
    form: Form,
    words: LineWords<'a>,
    steps: Vec<Step>,
}

impl<'a> Model for OpenBlock<'a> {
    ghost use Rattle.script_table.specs.Build.{Opened};
    ghost use Rattle.words_script.specs.contracts.body.Body as body;
    ghost use Rattle.std.specs.Coded.{codes};

    ghost Value = { Opened };

    ghost coded = { Prim.hlevel (codes, body.the_row.coded) };

    ghost view = { λ o. record { form = o.form; words = o.words; steps = o.steps.items } };
}

impl<'a> OpenBlock<'a> {
    fn new(alloc: Global, form: Form, words: LineWords<'a>) -> OpenBlock<'a>
        ensures { result ≡ record { form = form; words = words.entry; steps = [] } }
    {
        OpenBlock {
            form,
            words,
            steps: Vec::new(alloc),
        }
    }

    #[inline(always)]
    fn push(&mut self, step: Step) -> Result<(), AllocError>
        ensures { IfOk result (λ _. self.new ≡ record self.old { steps = self.old.steps ++ step ∷ [] }) }
    {
        self.steps.push(step)?;
        Ok(())
    }
}

// The quantum, what is open and what is declared.
#[derive(Drop)]
struct Builder<'a> {
    quantum: u64,
    blocks: Vec<OpenBlock<'a>>,
    decls: Vec<Decl>,
}

impl<'a> Model for Builder<'a> {
    ghost use Rattle.std.specs.Prelude.{reverse};
    ghost use Rattle.script_table.specs.Build.{Built};
    ghost use Rattle.words_script.specs.contracts.body.Body as body;
    ghost use Rattle.std.specs.Coded.{codes};

    ghost Value = { Built };

    ghost coded = { Prim.hlevel (codes, body.the_row.coded) };

    ghost view = { λ b. record { quantum = b.quantum; blocks = reverse b.blocks.items; decls = b.decls.items } };
}

impl<'a> Builder<'a> {
    fn new(alloc: Global) -> Builder<'a>
        ensures { result ≡ nothing_built }
    {
        Builder {
            quantum: 10,
            blocks: Vec::new(alloc),
            decls: Vec::new(alloc),
        }
    }

    fn open(&mut self, block: OpenBlock<'a>) -> Result<(), AllocError>
        ensures { IfOk result (λ _. self.new ≡ record self.old { blocks = block.entry ∷ self.old.blocks }) }
    {
        self.blocks.push(block)?;
        Ok(())
    }

    fn pop(&mut self) -> Option<OpenBlock<'a>>
        ensures { MatchOption result ((self.old.blocks ≡ []) × (self.new ≡ self.old))
            (λ o. (self.old.blocks ≡ o ∷ self.new.blocks) × (self.new ≡ record self.old { blocks = self.new.blocks })) }
    {
        self.blocks.pop()
    }

    fn declare(&mut self, decl: Option<Decl>) -> Result<(), AllocError>
        ensures { IfOk result (λ _. self.new ≡ with_decl self.old decl) }
    {
        if let Some(decl) = decl {
            self.decls.push(decl)?;
        }
        Ok(())
    }

    #[inline(always)]
    fn put(&mut self, step: Option<Step>) -> Result<(), AllocError>
        ensures { IfOk result (λ _. self.new ≡ with_step self.old step) }
    {
        let Some(step) = step else { return Ok(()) };
        let Some(block) = self.blocks.last_mut() else {
            return Ok(())
        };
        block.push(step)?;
        Ok(())
    }

    fn close_one(
        &mut self,
        names: &NameIndex<'_>,
        run: bool,
        form: Form,
        words: &LineWords<'_>,
        steps: Vec<Step>,
    ) -> Result<(), AllocError>
        ensures { IfOk result (λ _. self.new ≡ close_one names.now self.old run form words.now steps.items) }
    {
        match form {
            Form::Body(form) => self.declare(body_decl(form, words, Body::new(steps))),
            Form::Block(form) => self.put(block_step(names, form, words, run, Body::new(steps))),
            _ => Ok(()),
        }
    }

    #[inline(never)]
    fn close(&mut self, names: &NameIndex<'_>, run: bool) -> Result<(), AllocError>
        ensures { IfOk result (λ _. self.new ≡ closed names.now self.old run self.old.blocks) }
    {
        match self.pop() {
            None => Ok(()),
            Some(block) => {
                let OpenBlock { form, words, steps } = block;
                self.close_one(names, run, form, &words, steps)
            }
        }
    }

    // Large values stand in functions of their own: most lines have none, and a function clears the room of its own at entry.
    #[inline(never)]
    fn declare_object(&mut self, form: ObjectForm, s: &Statement<'_>) -> Result<(), AllocError>
        ensures { IfOk result (λ _. self.new ≡ with_decl self.old (object_decl form s.now.words)) }
    {
        self.declare(object_decl(form, &s.words()))
    }

    #[inline(never)]
    fn declare_action(
        &mut self,
        names: &NameIndex<'_>,
        form: ActionForm,
        s: &Statement<'_>,
    ) -> Result<(), AllocError>
        ensures { IfOk result (λ _. self.new ≡ with_decl self.old (action_decl names.now form s.now.words)) }
    {
        self.declare(action_decl(names, form, &s.words()))
    }

    #[inline(never)]
    fn begin(&mut self, alloc: Global, s: &Statement<'a>) -> Result<(), AllocError>
        ensures { IfOk result (λ _. self.new ≡ opens self.old s.now.row.form s.now.words) }
    {
        self.open(OpenBlock::new(alloc, s.form(), s.words()))
    }

    #[inline(never)]
    fn set_quantum(&mut self, s: &Statement<'_>)
        ensures { self.new ≡ record self.old {
          quantum = unwrap_or (number_in 1 greatest 1 s.now.words) self.old.quantum;
        } }
    {
        if let Some(quantum) = number_in(1, GREATEST_NUMBER, 1, &s.words()) {
            self.quantum = quantum;
        }
    }

    #[inline(never)]
    fn make(
        &mut self,
        names: &NameIndex<'_>,
        form: CallForm,
        s: &Statement<'_>,
    ) -> Result<(), AllocError>
        ensures { IfOk result (λ _. self.new
            ≡ with_step self.old (option_map step.Make (call_of names.now form s.now.words))) }
    {
        match call_of(names, form, &s.words()) {
            None => Ok(()),
            Some(call) => self.put(Some(Step::Make(call))),
        }
    }

    fn take(
        &mut self,
        alloc: Global,
        names: &NameIndex<'_>,
        s: &Statement<'a>,
    ) -> Result<(), AllocError>
        ensures { IfOk result (λ _. self.new ≡ after names.now self.old s.now) }
    {
        match s.form() {
            Form::Quantum => {
                self.set_quantum(s);
                Ok(())
            }
            Form::Object(form) => self.declare_object(form, s),
            Form::Action(form) => self.declare_action(names, form, s),
            Form::Body(_) | Form::Block(_) => self.begin(alloc, s),
            Form::Step(form) => self.put(plain_step(form, &s.words())),
            // The commonest call has a way of its own.
            Form::Call(CallForm::Thread(ThreadCall::Yield)) => self.put(Some(Step::Make(
                Call::Yield,
            ))),
            Form::Call(form) => self.make(names, form, s),
            Form::Close(form) => self.close(names, runs_cleanup(form)),
        }
    }
}

/// The script that the statements of a text of this version say.
#[inline(never)]
pub(crate) fn script_of(
    alloc: Global,
    version: Version,
    names: &NameIndex<'_>,
    statements: &[Statement<'_>],
) -> Result<Script, AllocError>
    ensures { IfOk result (λ s. s ≡ script_of version names.now statements.now) }
{
    let mut builder = Builder::new(alloc);
    for s in statements {
        builder.take(alloc, names, s)?;
    }
    Ok(Script {
        version: version.number(),
        quantum: builder.quantum,
        decls: Decls::new(builder.decls),
    })
}
