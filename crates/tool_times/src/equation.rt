//! The equation of response times, and its least solution.
ghost use Rattle.std.specs.Prelude.{◌≡◌, ◌+◌, ◌*◌, ◌^◌, ◌<◌, ◌≤◌, ℕ, length, MatchOption};
ghost use Rattle.tool_times.specs.Tasks.{IsTask, AreTasks};
ghost use Rattle.tool_times.specs.Schedule.{finish_by};
ghost use Rattle.tool_times.specs.Equation.{work_before, work_above, interference, demand, Solves, IsLeastSolution};

use crate::Task;
use parts_steps::Steps;
use std::sync::ledger::Ledger;
use words_numbers::Prio;

// The work that a task releases before the instant n.
fn work_before(t: &Task, n: u64) -> u64
    requires task { IsTask t.now }
    requires small { n ≤ 10 ^ 8 }
    ensures value { result ≡ work_before n t.now }
    ensures fits { result ≤ 10 ^ 14 }
{
    n.div_ceil(t.period as u64) * t.cost as u64
}

// The same where the task has a higher priority than p, and nothing otherwise.
fn work_above(t: &Task, p: Prio, n: u64) -> u64
    requires task { IsTask t.now }
    requires small { n ≤ 10 ^ 8 }
    ensures value { result ≡ work_above p n t.now }
    ensures fits { result ≤ 10 ^ 14 }
{
    if t.priority > p { work_before(t, n) } else { 0 }
}

// The work that all tasks of a higher priority release before the instant n.
#[tactic(auto, using(crate::proofs::TaskSets::few_tasks))]
fn interference(tasks: &[Task], p: Prio, n: u64) -> u64
    requires tasks { AreTasks tasks.now }
    requires small { n ≤ 10 ^ 8 }
    ensures value { result ≡ interference p n tasks.now }
    ensures fits { result ≤ 256 * 10 ^ 14 }
{
    let mut total = 0;
    for t in tasks {
        total += work_above(t, p, n);
    }
    total
}

// The work that is to be served by the instant n if task k is to have finished its first job by then.
fn demand(tasks: &[Task], k: usize, n: u64) -> u64
    requires tasks { AreTasks tasks.now }
    requires known { k < length tasks.now }
    requires small { n ≤ 10 ^ 8 }
    ensures { result ≡ demand tasks.now k n }
{
    let task = &tasks[k];
    task.cost as u64 + task.blocking as u64 + interference(tasks, task.priority, n)
}

/// The least solution of the equation of task k, come to from below, where that is at most the bound.
pub(crate) fn least_solution<L: Ledger>(
    tasks: &[Task],
    k: usize,
    bound: u64,
    steps: &mut Steps<L>,
) -> Option<u64>
    requires tasks { AreTasks tasks.now }
    requires known { k < length tasks.now }
    requires small { bound ≤ 10 ^ 8 }
    ensures finish { result ≡ finish_by bound tasks.now k }
    ensures least { MatchOption result
        ((n : ℕ) → Solves tasks.now k n → bound < n)
        (λ r. IsLeastSolution tasks.now k r) }
    ensures rounds { steps.new ≤ steps.old + bound + 1 }
{
    let mut value = 0;
    while value <= bound {
        steps.tick();
        let next = demand(tasks, k, value);
        if next == value {
            return Some(value);
        }
        value = next;
    }
    None
}
