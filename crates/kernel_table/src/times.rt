//! The wheel, and when the items of the threads are due.
ghost use Rattle.std.specs.Prelude.{◌≡◌, ◌<◌, ◌≤◌, ◌+◌, [], None, length, slice_set};
ghost use Rattle.rules_machine.specs.Agenda.{agenda};
ghost use Rattle.rules_machine.specs.DueItems.{next_item};
ghost use Rattle.rules_machine.specs.Threads.{thread_in};
ghost use Rattle.kernel_table.specs.Table.{machine_at, machine_with};
ghost use Rattle.kernel_table.specs.Tied.{AreArmed, refilling, timed, waiting_until};
ghost use Rattle.parts_wheel.specs.Dues.{due_of};
ghost use Rattle.kernel_table.specs.Times.{in_time, least_due};

use crate::open::tid_of;
use crate::table::Table;
use kernel_threads::Threads;
use parts_wheel::Wheel;
use words_numbers::{Item, ItemId, Tick, Tid};

/// The item falls due at the tick, where that is an instant; it is not armed afterwards where it is none.
#[inline(always)]
fn set_due_at(wheel: &mut Wheel, id: ItemId, at: Option<u64>)
    requires { id.number < length wheel.old.dues }
    ensures { wheel.new ≡ record wheel.old { dues = slice_set wheel.old.dues id.number (in_time at) } }
{
    match at {
        None => wheel.set_due(id, None),
        Some(at) => wheel.set_due(id, Tick::try_new(at)),
    }
}

/// The refill of the thread's server is armed as it is due now.
#[inline(always)]
pub(crate) fn retime_refill(threads: &Threads, wheel: &mut Wheel, t: Tid)
    requires thread { t < length threads.now }
    requires numbers { length wheel.old.dues ≡ 1024 }
    ensures { wheel.new.dues ≡ refilling t (thread_in threads.now t) wheel.old.dues }
{
    wheel.set_due(Item::Refill(t).number(), threads.get(t).refill_due());
}

/// The thread has started, and its wait ends then by itself; with `None` it waits without a limit, or not at all.
#[inline(always)]
pub(crate) fn time_wait(wheel: &mut Wheel, t: Tid, due: Option<Tick>)
    requires thread { t < 256 }
    requires numbers { length wheel.old.dues ≡ 1024 }
    ensures { wheel.new.dues ≡ waiting_until t due wheel.old.dues }
{
    wheel.set_due(Item::Start(t).number(), None);
    wheel.set_due(Item::Timeout(t).number(), due);
}

/// The refill of the thread, which was due, is due then.
#[inline(always)]
pub(crate) fn time_refill(wheel: &mut Wheel, t: Tid, due: Option<Tick>)
    requires thread { t < 256 }
    requires numbers { length wheel.old.dues ≡ 1024 }
    ensures { wheel.new.dues ≡ slice_set wheel.old.dues t due }
{
    wheel.set_due(Item::Refill(t).number(), due);
}

/// The wait of the thread, which has started, does not end by itself any more.
#[inline(always)]
pub(crate) fn end_sleep(wheel: &mut Wheel, t: Tid)
    requires thread { t < 256 }
    requires numbers { length wheel.old.dues ≡ 1024 }
    requires started { due_of (256 + t) wheel.old.dues ≡ None }
    ensures { wheel.new.dues ≡ waiting_until t None wheel.old.dues }
{
    wheel.set_due(Item::Timeout(t).number(), None);
}

/// The thread, which can run, begins a wait that ends then by itself; with `None` it waits without a limit.
#[inline(always)]
pub(crate) fn time_runner(wheel: &mut Wheel, t: Tid, due: &Option<Tick>)
    requires thread { t < 256 }
    requires numbers { length wheel.old.dues ≡ 1024 }
    requires started { due_of (256 + t) wheel.old.dues ≡ None }
    requires runs { due_of (512 + t) wheel.old.dues ≡ None }
    ensures { wheel.new.dues ≡ waiting_until t due.now wheel.old.dues }
{
    if let Some(at) = *due {
        wheel.arm(Item::Timeout(t).number(), at);
    }
}

/// The items of the thread are armed as they are due now.
pub(crate) fn retime(threads: &Threads, wheel: &mut Wheel, t: Tid)
    requires thread { t < length threads.now }
    requires numbers { length wheel.old.dues ≡ 1024 }
    ensures { wheel.new.dues ≡ timed t (thread_in threads.now t) wheel.old.dues }
{
    retime_refill(threads, wheel, t);
    let thread = threads.get(t);
    set_due_at(wheel, Item::Start(t).number(), thread.start_due());
    wheel.set_due(Item::Timeout(t).number(), thread.wait_due());
}

/// The items of all threads are armed, where nothing was.
pub(crate) fn time_all(threads: &Threads, wheel: &mut Wheel)
    requires few { length threads.now ≤ 256 }
    requires first { AreArmed [] [] wheel.old.dues }
    ensures { AreArmed threads.now [] wheel.new.dues }
{
    for number in 0..threads.count() {
        retime(threads, wheel, tid_of(number));
    }
}

impl Table {
    /// The item of least number that is due at or before now; `None` exactly where none is. Where nothing is due by now that is one
    /// comparison.
    #[inline(always)]
    pub fn first_due(&mut self, now: Tick) -> Option<Item>
        ensures item { result ≡ next_item (machine_at now self.old) }
        ensures same { self.new ≡ self.old }
    {
        // its range is known once it is read
        let _ = now.get();
        let id = self.wheel.first_due(now)?;
        Item::of(id)
    }

    /// The least tick at which something falls due; `None` exactly where nothing does, or only after the last instant.
    #[inline(always)]
    pub fn next_due(&self) -> Option<Tick>
        ensures { result ≡ in_time (least_due (agenda (machine_with self.now.threads self.now.mutexes self.now.timers))) }
    {
        let next = self.wheel.next()?;
        // its range is known once it is read
        let _ = next.get();
        Some(next)
    }
}
