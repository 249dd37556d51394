//! How much there is of each thing in a state, and what is known of that.
ghost use Rattle.std.specs.Prelude.{ℕ, ◌≡◌, ◌≤◌, ◌<◌, length};
ghost use Rattle.rules_machine.specs.Threads.{queue_at, thread_at};
ghost use Rattle.kernel_texts.specs.Modest.{HasFewMembers, IsModestThread};
ghost use Rattle.kernel_texts.specs.Rows.{object_count};

use crate::declared::Declared;
use kernel_state::Parts;
use kernel_texts::ObjectRow;
use script_writer::name_count;
use words_numbers::{ObjId, Tid};
use words_script::NameKind;

/// How many objects a row tells of.
#[inline(always)]
pub fn object_count(parts: &Parts, decls: &Declared<'_>, row: ObjectRow) -> usize
    ensures { result ≡ object_count row decls.now parts.now.machine }
{
    match row {
        ObjectRow::Owner => parts.mutex_count(),
        ObjectRow::MutexWaiters => parts.mutex_count(),
        ObjectRow::ConditionWaiters => name_count(decls.items(), NameKind::Cond),
        ObjectRow::SemaphoreWaiters => parts.semaphore_count(),
        ObjectRow::Value => parts.semaphore_count(),
        ObjectRow::Messages => parts.queue_count(),
        ObjectRow::QueueWaiters => parts.queue_count(),
        ObjectRow::Registration => parts.queue_count(),
        ObjectRow::Arming => parts.timer_count(),
    }
}

/// The object of a number.
pub fn object_of(number: usize) -> ObjId
    requires { number < 256 }
    ensures { result ≡ number }
{
    match ObjId::try_new(number as u16) {
        Some(k) => k,
        None => unreachable!(),
    }
}

// ---- what is known

/// There are at most 256 timers.
pub fn know_timers(parts: &Parts)
    ensures { length parts.now.machine.timers ≤ 256 }
{
    let _count = parts.timer_count();
}

/// There are 255 lists and 32 signals.
pub fn know_rows(parts: &Parts)
    ensures lists { length parts.now.machine.lists ≡ 255 }
    ensures signals { length parts.now.machine.actions ≡ 32 }
{
    let _lists = parts.list_count();
    let _signals = parts.signal_count();
}

// A thread has few frames, cleanup handlers and pending replenishments.
#[tactic(auto, using(kernel_texts::proofs::FewMembers::thread_modest))]
fn know_thread(parts: &Parts, t: Tid)
    requires { t < length parts.now.names }
    ensures { IsModestThread 112 (thread_at parts.now.machine t) }
{
    parts.thread(t).know_few();
}

// So has each.
fn know_threads(parts: &Parts)
    ensures { (t : ℕ) → t < length parts.now.machine.threads → IsModestThread 112 (thread_at parts.now.machine t) }
{
    for number in 0..parts.count() {
        know_thread(parts, parts.tid(number));
    }
}

// A queue has at most as many messages as it is deep.
fn know_queue(parts: &Parts, q: ObjId)
    requires { q < length parts.now.machine.queues }
    ensures { length (queue_at parts.now.machine q).messages ≤ (queue_at parts.now.machine q).depth }
{
    parts.queue(q).know_few();
}

// So has each.
fn know_queues(parts: &Parts)
    requires { length parts.now.machine.queues ≤ 256 }
    ensures { (q : ℕ) → q < length parts.now.machine.queues → length (queue_at parts.now.machine q).messages ≤ (queue_at parts.now.machine q).depth }
{
    for number in 0..parts.queue_count() {
        know_queue(parts, object_of(number));
    }
}

/// No list of the state is longer than the kernel's parts have room for. It goes through the threads and queues, and reads nothing of
/// them.
pub fn know_few(parts: &Parts)
    requires { length parts.now.machine.queues ≤ 256 }
    ensures { HasFewMembers parts.now.machine }
{
    let _head = parts.head();
    know_threads(parts);
    know_queues(parts);
    parts.know_few_pending();
}
