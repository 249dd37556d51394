//! The rule of the tick's end.
ghost use Rattle.std.specs.Prelude.{◌≡◌, ◌≤◌, ◌<◌, [], false, length};
ghost use Rattle.rules_machine.specs.Threads.{thread_at};
ghost use Rattle.rules_machine.specs.Ticks.{consumed_in, ends_tick, exhausting, nothing, slicing, tick_end, tick_ends};
ghost use Rattle.kernel_state.specs.Kernel.{after};
ghost use Rattle.kernel_state.specs.Does.{Does};
ghost use Rattle.kernel_settling.specs.Stood.{StoodRight};

use kernel_settling::settle;
use kernel_state::Parts;
use kernel_threads::TickEnd;
use kernel_wakes::plan;
use parts_io::Sink;
use parts_tracer::Tracer;
use words_numbers::Tid;
use words_trace::Event;

// The round robin interval is used up: the thread goes to the tail.
#[inline(never)]
fn use_slice(p: &mut Parts, t: Tid)
    requires known { t < length p.old.names }
    requires quiet { p.old.direct ≡ [] }
    ensures { p.new ≡ after (ends_tick slicing t) p.old }
{
    let runs = p.thread(t).is_runnable();
    p.clear_slice(t);
    if runs {
        p.move_later(t);
    }
}

// The capacity is used up.
#[inline(never)]
fn exhaust<K: Sink>(p: &mut Parts, t: Tid, out: &mut Tracer<'_, K>)
    requires known { t < length p.old.names }
    requires quiet { p.old.direct ≡ [] }
    requires used { 1 ≤ consumed_in (thread_at p.old.machine t).server }
    ensures { Does K.text K.faults (ends_tick exhausting t) p.old p.new out.old out.new }
{
    p.tell(&Event::Exhaust(t), out);
    plan(p, t, out);
    p.move_unless_boosted(t);
}

// The rule of the tick's end, before its moves: whether it did anything.
#[inline(always)]
fn end_by_rule<K: Sink>(p: &mut Parts, was_high: bool, t: Tid, out: &mut Tracer<'_, K>) -> bool
    requires known { t < length p.old.names }
    requires quiet { p.old.direct ≡ [] }
    ensures none { result ≡ false → tick_end was_high p.old.machine.quantum (thread_at p.old.machine t) ≡ nothing }
    ensures does { Does K.text K.faults (ends_tick (tick_end was_high p.old.machine.quantum (thread_at p.old.machine t)) t) p.old p.new out.old out.new }
{
    match p.tick_end(t, was_high) {
        TickEnd::Planning => plan(p, t, out),
        TickEnd::Exhausting => exhaust(p, t, out),
        TickEnd::Slicing => use_slice(p, t),
        TickEnd::Nothing => return false,
    }
    true
}

/// The rule of the tick's end, with its moves. Where it does nothing, nobody has to move since the last settling.
#[inline(always)]
pub(crate) fn end_tick<K: Sink>(p: &mut Parts, was_high: bool, t: Tid, out: &mut Tracer<'_, K>)
    requires known { t < length p.old.names }
    requires quiet { p.old.direct ≡ [] }
    requires stood { StoodRight p.old.machine }
    ensures does { Does K.text K.faults (tick_ends was_high t) p.old p.new out.old out.new }
    ensures stood { StoodRight p.new.machine }
{
    if end_by_rule(p, was_high, t, out) {
        settle(p);
    }
}
