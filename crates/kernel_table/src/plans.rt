//! What a plan changes beside the thread.
ghost use Rattle.std.specs.Prelude.{◌≡◌, ◌<◌, None, Some, false, length, true};
ghost use Rattle.rules_machine.specs.Priorities.{assigned_of};
ghost use Rattle.rules_machine.specs.Threads.{thread_in};
ghost use Rattle.parts_owners.specs.Chains.{assigned_at, assigned_to, with_claim};
ghost use Rattle.parts_wheel.specs.Dues.{due_of};
ghost use Rattle.kernel_table.specs.Moves.{CanRelink, Relinks};
ghost use Rattle.kernel_table.specs.Plans.{IsPlanned};
ghost use Rattle.kernel_table.specs.Tied.{refilling};
ghost use Rattle.kernel_table.specs.Times.{refill_of};

use crate::links::{reassign, reassign_changed};
use crate::times::retime_refill;
use kernel_threads::{Planned, Threads};
use parts_owners::{Chain, Moved};
use parts_waiters::Waits;
use parts_wheel::Wheel;
use words_numbers::{Item, Tid};

/// The refill of the thread is armed as it is due after the plan, and the chain takes its assigned priority. Mostly the plan is the only
/// one, and the priority stays.
#[inline(always)]
pub(crate) fn take_plan(
    threads: &Threads,
    chain: &mut Chain,
    waits: &mut Waits,
    wheel: &mut Wheel,
    t: Tid,
    planned: &Planned,
) -> Option<Moved>
    requires thread { t < length threads.now }
    requires can { CanRelink chain.old waits.old t }
    requires numbers { length wheel.old.dues ≡ 1024 }
    requires planned { IsPlanned (thread_in threads.now t) (due_of t wheel.old.dues) (assigned_at chain.old t) planned.now }
    ensures dues { wheel.new.dues ≡ refilling t (thread_in threads.now t) wheel.old.dues }
    ensures links { Relinks (with_claim t (assigned_to (assigned_of (thread_in threads.now t))) chain.old) waits.old chain.old chain.new waits.new result }
{
    if planned.has_room {
        arm_planned(threads, wheel, t, planned);
        return reassign_changed(threads, chain, waits, t, false);
    }
    take_plan_in_full(threads, chain, waits, wheel, t)
}

// The refill of the thread is armed where what was planned alone is pending.
#[inline(always)]
fn arm_planned(threads: &Threads, wheel: &mut Wheel, t: Tid, planned: &Planned)
    requires thread { t < length threads.now }
    requires numbers { length wheel.old.dues ≡ 1024 }
    requires first { planned.now.is_first ≡ true → (due_of t wheel.old.dues ≡ None) × (refill_of (thread_in threads.now t) ≡ Some planned.now.replenish.due) }
    requires later { planned.now.is_first ≡ false → due_of t wheel.old.dues ≡ refill_of (thread_in threads.now t) }
    ensures { wheel.new.dues ≡ refilling t (thread_in threads.now t) wheel.old.dues }
{
    // the clauses alone speak of them
    let _ = threads;
    if planned.is_first {
        wheel.arm(Item::Refill(t).number(), planned.replenish.due);
    }
}

// Whatever is pending, and whichever the priority.
#[inline(never)]
fn take_plan_in_full(
    threads: &Threads,
    chain: &mut Chain,
    waits: &mut Waits,
    wheel: &mut Wheel,
    t: Tid,
) -> Option<Moved>
    requires thread { t < length threads.now }
    requires can { CanRelink chain.old waits.old t }
    requires numbers { length wheel.old.dues ≡ 1024 }
    ensures dues { wheel.new.dues ≡ refilling t (thread_in threads.now t) wheel.old.dues }
    ensures links { Relinks (with_claim t (assigned_to (assigned_of (thread_in threads.now t))) chain.old) waits.old chain.old chain.new waits.new result }
{
    retime_refill(threads, wheel, t);
    reassign(threads, chain, waits, t)
}
