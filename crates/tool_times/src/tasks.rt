//! Tasks, and their response times.
ghost use Rattle.std.specs.Prelude.{◌≡◌, ◌+◌, ◌^◌, ◌<◌, ◌≤◌, ℕ, false, [], ◌∷◌, ◌++◌, length, IfOk, OnErr, MatchOption};
ghost use Rattle.tool_times.specs.Tasks.{IsTask, is_taken, task_at};
ghost use Rattle.tool_times.specs.Schedule.{finish_by};
ghost use Rattle.tool_times.specs.Equation.{Solves, IsLeastSolution};

use crate::Task;
use crate::equation::least_solution;
use parts_steps::Steps;
use std::alloc::{AllocError, Global};
use std::marker::Model;
use std::sync::ledger::Ledger;
use words_numbers::Prio;

/// Independent periodic tasks, of which no two have one priority, so at most 255. Contracts see them as the list of them.
#[derive(Drop)]
pub struct Tasks {
    list: Vec<Task>,
}

impl Model for Tasks {
    ghost use Rattle.std.specs.Prelude.{List};
    ghost use Rattle.tool_times.specs.declared.task.Task.{Task};
    ghost use Rattle.tool_times.specs.Tasks.{AreTasks};

    ghost Value = { List Task };

    ghost view = { λ t. t.list.items };

    ghost invariant = { λ t. AreTasks t.list.items };
}

impl Tasks {
    /// No task.
    pub(crate) fn new(alloc: Global) -> Tasks
        ensures { result ≡ [] }
    {
        Tasks {
            list: Vec::new(alloc),
        }
    }

    /// Whether a task has the priority.
    pub(crate) fn has_priority(&self, p: Prio) -> bool
        ensures { result ≡ is_taken p self.now }
    {
        self.list.iter().any(|t| t.priority == p)
    }

    /// One task more.
    pub(crate) fn add(&mut self, task: Task) -> Result<(), AllocError>
        requires task { IsTask task }
        requires apart { is_taken task.priority self.old ≡ false }
        ensures added { IfOk result (λ _. self.new ≡ self.old ++ task ∷ []) }
        ensures unchanged { OnErr result (self.new ≡ self.old) }
    {
        if self.list.push(task).is_err() {
            return Err(AllocError);
        }
        Ok(())
    }

    /// How many tasks there are, 1 to 255 where `open` gave them.
    #[tactic(auto, using(crate::proofs::TaskSets::few_tasks))]
    pub fn count(&self) -> u16
        ensures { result ≡ length self.now }
    {
        self.list.len() as u16
    }

    /// The name of task k, counted from 0 in the order of declaration; at most 32 bytes.
    pub fn name(&self, k: u16) -> &[u8]
        requires { k < length self.now }
        ensures name { result.now ≡ (task_at self.now k).name }
        ensures short { length result.now ≤ 32 }
    {
        let task = &self.list[k as usize];
        task.name.bytes()
    }

    /// When task k finishes its first job, in ticks; `None` exactly where that is after the bound, or never.
    ///
    /// It is the instant at which the schedule, served tick by tick, has served the job, and the least positive solution of the
    /// task's equation. Each evaluation of the sum is one of the steps. They are at most one more than the bound, and
    /// each goes over all tasks once. It takes no memory.
    pub fn response<L: Ledger>(&self, k: u16, bound: u64, steps: &mut Steps<L>) -> Option<u64>
        requires known { k < length self.now }
        requires small { bound ≤ 10 ^ 8 }
        ensures finish { result ≡ finish_by bound self.now k }
        ensures least { MatchOption result
            ((n : ℕ) → Solves self.now k n → bound < n)
            (λ r. IsLeastSolution self.now k r) }
        ensures rounds { steps.new ≤ steps.old + bound + 1 }
    {
        least_solution(self.list.as_slice(), k as usize, bound, steps)
    }
}
