//! How many lines of each kind there are so far, and how deep the blocks are.
ghost use Rattle.std.specs.Prelude.{◌≡◌, ◌≤◌, ◌<◌, ◌^◌, ◌==◌};
ghost use Rattle.script_table.specs.Ranges.{object_kind, entered, left, tallied, is_too_many, no_tally};
ghost use Rattle.script_table.specs.Versions.{most_of};
ghost use Rattle.script_reader.specs.Bounds.{AreTallyBelow};

use crate::names::counts::Counts;
use crate::structure::blocks::{body_kind, closed_by, closer_of};
use script_table::{Closer, Form, NameKind, ObjectForm, Version};
use std::marker::Model;

// How many steps a script may have, how deep its blocks may stand in one another, and how many cleanup handlers may be pushed at once.
const MOST_STEPS: u64 = 65_536;

const MOST_DEPTH: u64 = 16;

const MOST_PUSHES: u64 = 8;

fn object_kind(form: ObjectForm) -> NameKind
    ensures { result ≡ object_kind form }
{
    match form {
        ObjectForm::Cond => NameKind::Cond,
        ObjectForm::Sem => NameKind::Sem,
        ObjectForm::Queue => NameKind::Queue,
        ObjectForm::QueueNonblock => NameKind::Queue,
        ObjectForm::Timer => NameKind::Timer,
        ObjectForm::TimerReal => NameKind::Timer,
        _ => NameKind::Mutex,
    }
}

#[derive(Drop)]
pub(crate) struct Tally {
    // How many threads, mutexes, conditions and semaphores there may be of each.
    most: u64,
    counts: Counts,
    quanta: u64,
    steps: u64,
    depth: u64,
    pushes: u64,
}

impl Model for Tally {
    ghost use Rattle.script_table.specs.Ranges.{Tally as TallyOfLines};

    ghost Value = { TallyOfLines };

    ghost view = { λ t. record {
      most = t.most;
      counts = t.counts;
      quanta = t.quanta;
      steps = t.steps;
      depth = t.depth;
      pushes = t.pushes;
    } };
}

impl Tally {
    pub(crate) fn new(version: Version) -> Tally
        ensures { result ≡ no_tally (most_of version) }
    {
        Tally {
            most: version.most(),
            counts: Counts::new(),
            quanta: 0,
            steps: 0,
            depth: 0,
            pushes: 0,
        }
    }

    fn enter(&mut self, closer: Closer)
        requires { AreTallyBelow self.old (2 ^ 63) }
        ensures { self.new ≡ entered self.old closer }
    {
        self.steps += 1;
        self.depth += 1;
        match closer {
            Closer::End => {}
            Closer::Pop => self.pushes += 1,
        }
    }

    fn leave(&mut self, closer: Closer)
        ensures { self.new ≡ left self.old closer }
    {
        self.depth = self.depth.saturating_sub(1);
        match closer {
            Closer::End => {}
            Closer::Pop => self.pushes = self.pushes.saturating_sub(1),
        }
    }

    /// Counts one more line.
    pub(crate) fn add(&mut self, form: Form)
        requires { AreTallyBelow self.old (2 ^ 63) }
        ensures { self.new ≡ tallied self.old form }
    {
        match form {
            Form::Quantum => self.quanta += 1,
            Form::Object(form) => self.counts.add(object_kind(form)),
            Form::Action(_) => {}
            Form::Body(form) => {
                self.counts.add(body_kind(form));
                self.depth += 1;
            }
            Form::Step(_) => self.steps += 1,
            Form::Call(_) => self.steps += 1,
            Form::Block(form) => self.enter(closer_of(form)),
            Form::Close(form) => self.leave(closed_by(form)),
        }
    }

    /// Whether there are too many with a line of this form, which is counted already.
    pub(crate) fn is_too_many(&self, form: Form) -> bool
        ensures { result ≡ is_too_many self.now form }
    {
        match form {
            Form::Quantum => self.quanta > 1,
            Form::Object(form) => self.counts.is_over(self.most, object_kind(form)),
            Form::Action(_) => false,
            Form::Body(form) => self.counts.is_over(self.most, body_kind(form)),
            Form::Step(_) => self.steps > MOST_STEPS,
            Form::Call(_) => self.steps > MOST_STEPS,
            Form::Block(_) => {
                self.steps > MOST_STEPS || (self.depth > MOST_DEPTH || self.pushes > MOST_PUSHES)
            }
            Form::Close(_) => false,
        }
    }

    pub(crate) fn has_no_thread(&self) -> bool
        ensures { result ≡ (self.now.counts.threads == 0) }
    {
        self.counts.has_no_thread()
    }
}
