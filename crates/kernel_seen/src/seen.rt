//! What the fact of a thread's status tells, as a value.
ghost use Rattle.std.specs.Prelude.{ℕ, ◌≡◌, ◌<◌, false, length, true};
ghost use Rattle.kernel_seen.specs.declared.seen.SeenStatus.TheVariants as statuses;
ghost use Rattle.kernel_seen.specs.declared.seen.SeenWait.TheVariants as waits;
ghost use Rattle.words_trace.specs.declared.event.CallName.TheVariants as calls;
ghost use Rattle.rules_machine.specs.Priorities.{assigned_of};
ghost use Rattle.kernel_threads.specs.Plain.{wait_of, waiting_of};
ghost use Rattle.rules_facts.specs.Fact.{blocked_thread};
ghost use Rattle.rules_facts.specs.Threads.{awaited, blocking_of, priorities_of, thread_fact};
ghost use Rattle.kernel_seen.specs.Seen.{due_of, seen_fact, what_of};

use kernel_state::Parts;
use kernel_threads::{Status, Thread, Wait, Waiting};
use rules_machine::call_name;
use words_numbers::{Tick, Tid};
use words_script::Policy;
use words_trace::CallName;

/// Whether a thread waits to start, may run, waits, or has ended.
#[derive(Clone, Copy, PartialEq)]
pub enum SeenStatus {
    Dormant,
    Ready,
    Blocked,
    Ended,
}

/// What a blocked thread waits for.
#[derive(Clone, Copy, PartialEq)]
pub enum SeenWait {
    Nothing,
    Mutex,
    Condition,
    Semaphore,
    Queue,
    Thread,
    Signal,
}

/// What is told of the status of a thread; of what is not told there is a 0.
#[derive(Clone, Copy)]
pub struct Seen {
    pub status: SeenStatus,
    pub assigned: u8,
    pub exec: u8,
    pub call: CallName,
    pub wait: SeenWait,
    /// The number of what it waits for, or the set of signals.
    pub which: u32,
    pub has_due: bool,
    pub due: u64,
}

// What a thread waits for, and its number.
fn see_wait(wait: &Wait) -> (SeenWait, u32)
    ensures { what_of result.0 result.1 ≡ awaited (wait_of wait.now) }
{
    match wait {
        Wait::Mutex(k) => (SeenWait::Mutex, u32::from(k.get())),
        Wait::MutexAgain(k, _) => (SeenWait::Mutex, u32::from(k.get())),
        Wait::Condition(c, _) => (SeenWait::Condition, u32::from(c.get())),
        Wait::End(t) => (SeenWait::Thread, u32::from(t.get())),
        Wait::Semaphore(k) => (SeenWait::Semaphore, u32::from(k.get())),
        Wait::Time => (SeenWait::Nothing, 0),
        Wait::Room(q, _) => (SeenWait::Queue, u32::from(q.get())),
        Wait::Message(q) => (SeenWait::Queue, u32::from(q.get())),
        Wait::Signal(set) => (SeenWait::Signal, set.bits()),
    }
}

// Whether a wait has a limit, and which.
fn see_due(due: Option<Tick>) -> (bool, u64)
    ensures due { due_of result.0 result.1 ≡ due }
{
    match due {
        Some(at) => (true, at.get()),
        None => (false, 0),
    }
}

// A thread of that status and these priorities, that does not wait.
fn unblocked(status: SeenStatus, assigned: u8, exec: u8) -> Seen
    ensures { result ≡ record { status = status; assigned = assigned; exec = exec; call = calls.Yield; wait = waits.Nothing; which = 0; has_due = false; due = 0 } }
{
    Seen {
        status,
        assigned,
        exec,
        call: CallName::Yield,
        wait: SeenWait::Nothing,
        which: 0,
        has_due: false,
        due: 0,
    }
}

// A thread of these priorities that waits.
fn blocked(assigned: u8, exec: u8, waiting: &Waiting) -> Seen
    ensures { (t : ℕ) → seen_fact t result ≡ blocked_thread t (record { assigned = assigned; exec = exec }) (blocking_of (waiting_of waiting.now)) }
{
    let (wait, which) = see_wait(&waiting.wait);
    let (has_due, due) = see_due(waiting.due);
    Seen {
        status: SeenStatus::Blocked,
        assigned,
        exec,
        call: call_name(&waiting.call),
        wait,
        which,
        has_due,
        due,
    }
}

/// The status of a thread as it is told.
pub(crate) fn see(parts: &Parts, t: Tid) -> Seen
    requires { t < length parts.now.names }
    ensures { seen_fact t result ≡ thread_fact parts.now.machine t }
{
    let assigned = parts.thread(t).assigned().get();
    let exec = parts.exec(t).get();
    match parts.thread(t).status() {
        Status::Dormant(_) => unblocked(SeenStatus::Dormant, 0, 0),
        Status::Runnable => unblocked(SeenStatus::Ready, assigned, exec),
        Status::Blocked(waiting) => blocked(assigned, exec, &waiting),
        Status::Ended => unblocked(SeenStatus::Ended, 0, 0),
    }
}

// ---- whether the same is told

fn is_same_wait(a: SeenWait, b: SeenWait) -> bool
    ensures { result ≡ true → a ≡ b }
{
    a == b
}

fn is_same_call(a: CallName, b: CallName) -> bool
    ensures { result ≡ true → a ≡ b }
{
    a == b
}

// Whether that is the priority that its policy gives the thread.
fn is_assigned(thread: &Thread, priority: u8) -> bool
    ensures { result ≡ true → assigned_of thread.now ≡ priority }
{
    match thread.policy() {
        Policy::Fifo(p) => p.get() == priority,
        Policy::Rr(p) => p.get() == priority,
        _ => thread.assigned().get() == priority,
    }
}

// Whether the thread has the priorities that were seen.
fn has_priorities(parts: &Parts, t: Tid, seen: &Seen) -> bool
    requires { t < length parts.now.names }
    ensures assigned { result ≡ true → (priorities_of parts.now.machine t).assigned ≡ seen.now.assigned }
    ensures exec { result ≡ true → (priorities_of parts.now.machine t).exec ≡ seen.now.exec }
{
    parts.exec(t).get() == seen.exec && is_assigned(parts.thread(t), seen.assigned)
}

// Whether it is what was seen that a thread waits for.
fn is_wait(wait: &Wait, seen: &Seen) -> bool
    ensures { result ≡ true → what_of seen.now.wait seen.now.which ≡ awaited (wait_of wait.now) }
{
    let (sort, which) = see_wait(wait);
    is_same_wait(sort, seen.wait) && which == seen.which
}

// Whether it is the limit of a wait that was seen.
fn is_due(due: Option<Tick>, seen: &Seen) -> bool
    ensures { result ≡ true → due_of seen.now.has_due seen.now.due ≡ due }
{
    match due {
        Some(at) => seen.has_due && at.get() == seen.due,
        None => !seen.has_due,
    }
}

// Whether it is the wait that was seen.
fn is_waiting(waiting: &Waiting, seen: &Seen) -> bool
    ensures { result ≡ true → record { call = seen.now.call; awaited = what_of seen.now.wait seen.now.which; due = due_of seen.now.has_due seen.now.due } ≡ blocking_of (waiting_of waiting.now) }
{
    if !is_due(waiting.due, seen) {
        return false;
    }
    if !is_wait(&waiting.wait, seen) {
        return false;
    }
    is_same_call(call_name(&waiting.call), seen.call)
}

// Whether that status was seen.
fn has_status(seen: &Seen, status: SeenStatus) -> bool
    ensures { result ≡ true → seen.now.status ≡ status }
{
    seen.status == status
}

// Whether a thread that was seen to be runnable is so still, at the same priorities.
#[inline(always)]
fn is_ready_as_seen(parts: &Parts, t: Tid, seen: &Seen) -> bool
    requires known { t < length parts.now.names }
    requires ready { seen.now.status ≡ statuses.Ready }
    ensures { result ≡ true → seen_fact t seen.now ≡ thread_fact parts.now.machine t }
{
    if !parts.thread(t).is_runnable() {
        return false;
    }
    has_priorities(parts, t, seen)
}

/// Whether that is what is told of the status of a thread.
#[inline(always)]
pub(crate) fn is_as_seen(parts: &Parts, t: Tid, seen: &Seen) -> bool
    requires { t < length parts.now.names }
    ensures { result ≡ true → seen_fact t seen.now ≡ thread_fact parts.now.machine t }
{
    if has_status(seen, SeenStatus::Ready) {
        return is_ready_as_seen(parts, t, seen);
    }
    match parts.thread(t).status() {
        Status::Dormant(_) => has_status(seen, SeenStatus::Dormant),
        Status::Runnable => false,
        Status::Blocked(waiting) => {
            has_status(seen, SeenStatus::Blocked)
                && is_waiting(&waiting, seen)
                && has_priorities(parts, t, seen)
        }
        Status::Ended => has_status(seen, SeenStatus::Ended),
    }
}
