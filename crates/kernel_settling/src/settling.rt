//! The moves of one effect or item. Only the named threads are looked at.
ghost use Rattle.std.specs.Prelude.{◌≡◌, ◌<◌, ◌+◌, ◌∷◌, [], IfSome, false, length, true};
ghost use Rattle.rules_machine.specs.Threads.{can_run, thread_numbers};
ghost use Rattle.rules_machine.specs.Settling.{left_runnable, moved_all};
ghost use Rattle.kernel_state.specs.Kernel.{with_lists};
ghost use Rattle.kernel_state.specs.Standing.{IsNext, StandFrom};
ghost use Rattle.kernel_settling.specs.Settled.{HavePriorities, Settles, left_one, moved, placed, placed_all, settled_now};
ghost use Rattle.kernel_state.specs.Callers.{IsRunning};

use crate::priorities::know_priorities;
use kernel_state::Parts;
use words_numbers::Tid;

// One direct move.
fn move_now(p: &mut Parts, t: Tid)
    requires { t < length p.old.names }
    ensures { p.new ≡ with_lists (moved p.old.machine t) p.old }
{
    if p.thread(t).is_runnable() {
        p.put_last(t);
    }
}

// The same where nobody is named.
#[inline(always)]
fn move_unnamed(p: &mut Parts, t: Tid)
    requires { t < length p.old.names }
    ensures { p.new ≡ with_lists (moved p.old.machine t) p.old }
{
    if p.thread(t).is_runnable() {
        p.put_last_as_named(t);
    }
}

// A thread whose execution priority rose or fell moves.
#[inline(always)]
fn place(p: &mut Parts, t: Tid)
    requires { t < length p.old.names }
    ensures { p.new ≡ with_lists (placed p.old.machine t) p.old }
{
    if p.thread(t).is_runnable() {
        place_runner(p, t);
    }
}

// The same of a thread that can run.
fn place_runner(p: &mut Parts, t: Tid)
    requires { IsRunning p.old t }
    ensures { p.new ≡ with_lists (placed p.old.machine t) p.old }
{
    let Some(before) = p.stands_at(t) else {
        p.forget(t);
        return;
    };
    let now = p.exec(t);
    if before < now {
        p.put_last(t);
    } else if now < before {
        p.put_first(t);
    } else {
        p.forget(t);
    }
}

// A thread that is not runnable leaves its list.
fn leave_one(p: &mut Parts, t: Tid)
    requires { t < length p.old.names }
    ensures { p.new ≡ with_lists (left_one p.old.machine t) p.old }
{
    if !p.thread(t).is_runnable() {
        p.take_off(t);
    }
}

// Those that are no longer runnable leave their lists.
fn leave(p: &mut Parts)
    ensures { p.new ≡ with_lists (λ lists. left_runnable p.old.machine) p.old }
{
    let mut from = 0;
    while let Some(t) = p.next_named(from) {
        leave_one(p, t);
        from = t.get() + 1;
    }
}

// The direct moves, in order.
#[tactic(auto, using(crate::proofs::SettlingSteps::moved_more))]
fn move_all(p: &mut Parts)
    ensures { p.new ≡ record (with_lists (moved_all p.old.machine p.old.direct) p.old) { direct = [] } }
{
    for i in 0..p.direct_count() {
        let t = p.direct_at(i);
        move_now(p, t);
    }
    p.clear_direct();
}

// Those whose execution priority rose or fell move, by number.
fn place_all(p: &mut Parts)
    ensures { p.new ≡ with_lists (placed_all p.old.machine (thread_numbers p.old.machine)) p.old }
{
    let mut from = 0;
    while let Some(t) = p.next_named(from) {
        place(p, t);
        from = t.get() + 1;
    }
}

// All moves. It stands apart, so that the frequent ones are short.
#[inline(never)]
fn settle_in_full(p: &mut Parts)
    requires { HavePriorities p.old.machine }
    ensures { p.new ≡ settled_now p.old }
{
    leave(p);
    move_all(p);
    place_all(p);
}

// The direct moves, where nobody is named. Mostly there is one.
#[inline(never)]
#[tactic(auto, using(crate::proofs::OneSettles::one_moves))]
fn settle_direct(p: &mut Parts)
    requires fits { HavePriorities p.old.machine }
    requires stand { StandFrom p.old.machine 0 }
    ensures { p.new ≡ settled_now p.old }
{
    if p.direct_count() != 1 {
        settle_in_full(p);
        return;
    }
    let t = p.direct_at(0);
    p.know_lists();
    p.clear_direct();
    move_unnamed(p, t);
}

// The one thread that is named leaves its list, or moves.
#[inline(always)]
fn settle_one(p: &mut Parts, t: Tid)
    requires { t < length p.old.names }
    ensures { p.new ≡ with_lists (λ lists. placed p.old.machine t (left_one p.old.machine t lists)) p.old }
{
    if p.thread(t).is_runnable() {
        place_runner(p, t);
    } else {
        p.take_off(t);
    }
}

// The moves where `t` is the first that is named. Mostly it is the only one.
#[inline(never)]
fn settle_named(p: &mut Parts, t: Tid)
    requires fits { HavePriorities p.old.machine }
    requires known { t < length p.old.names }
    requires first { IsNext p.old.machine 0 t }
    ensures { p.new ≡ settled_now p.old }
{
    if p.is_named_alone(t) {
        settle_alone(p, t);
    } else {
        settle_several(p, t);
    }
}

// The moves where `t` alone is named.
#[inline(always)]
fn settle_alone(p: &mut Parts, t: Tid)
    requires fits { HavePriorities p.old.machine }
    requires known { t < length p.old.names }
    requires first { IsNext p.old.machine 0 t }
    requires alone { StandFrom p.old.machine (t + 1) }
    ensures { p.new ≡ settled_now p.old }
{
    if p.direct_count() != 0 {
        settle_woken(p, t);
        return;
    }
    p.know_lists();
    settle_one(p, t);
}

// The moves where `t` is the first of several that are named. Mostly they are two, of which one leaves its list.
#[inline(never)]
#[tactic(auto, using(crate::proofs::OneSettles::still_settled))]
fn settle_several(p: &mut Parts, t: Tid)
    requires fits { HavePriorities p.old.machine }
    requires known { t < length p.old.names }
    ensures { p.new ≡ settled_now p.old }
{
    match first_to_leave(p, t) {
        None => settle_in_full(p),
        Some(u) => {
            p.take_off(u);
            settle_others(p);
        }
    }
}

// A thread that is not runnable: `t`, or the next that is named.
#[inline(always)]
fn first_to_leave(p: &Parts, t: Tid) -> Option<Tid>
    requires { t < length p.now.names }
    ensures known { IfSome result (λ u. u < length p.now.names) }
    ensures leaves { IfSome result (λ u. can_run p.now.machine u ≡ false) }
{
    if !p.thread(t).is_runnable() {
        return Some(t);
    }
    let Some(u) = p.next_named(t.get() + 1) else {
        return None;
    };
    if p.thread(u).is_runnable() {
        return None;
    }
    Some(u)
}

// The moves of those that are named yet. Mostly it is one.
#[inline(always)]
fn settle_others(p: &mut Parts)
    requires { HavePriorities p.old.machine }
    ensures { p.new ≡ settled_now p.old }
{
    if let Some(t) = p.next_named(0) {
        if p.is_named_alone(t) {
            settle_alone(p, t);
            return;
        }
    }
    settle_in_full(p);
}

// The moves where `t` alone is named, and some move directly. Mostly it is `t` alone, which can run again.
#[inline(always)]
fn settle_woken(p: &mut Parts, t: Tid)
    requires fits { HavePriorities p.old.machine }
    requires known { t < length p.old.names }
    requires first { IsNext p.old.machine 0 t }
    requires alone { StandFrom p.old.machine (t + 1) }
    ensures { p.new ≡ settled_now p.old }
{
    if moves_alone(p, t) && p.thread(t).is_runnable() {
        p.know_lists();
        p.clear_direct();
        p.put_last(t);
    } else {
        settle_in_full(p);
    }
}

// Whether the thread moves directly, and no other.
#[inline(always)]
#[tactic(auto, using(crate::proofs::OneSettles::one_item))]
fn moves_alone(p: &Parts, t: Tid) -> bool
    ensures { result ≡ true → p.now.direct ≡ t ∷ [] }
{
    p.direct_count() == 1 && p.direct_at(0).get() == t.get()
}

// All moves, by the lists, which tell what the priority of a thread was. Where nobody is named and nothing moves directly it is three
// comparisons.
#[inline(always)]
fn settle_by_lists(p: &mut Parts)
    ensures state { p.new ≡ settled_now p.old }
    ensures fits { HavePriorities p.old.machine }
{
    know_priorities(p);
    match p.next_named(0) {
        Some(t) => settle_named(p, t),
        None => {
            if p.direct_count() != 0 {
                settle_direct(p);
            }
        }
    }
}

/// The moves of what was done since the threads stood right: who can no longer run leaves its list, the direct moves go to their tails
/// in order, and each other thread whose execution priority changed goes to the tail of its new list where it rose, to the head where
/// it fell. Nothing but the lists changes.
#[inline(always)]
pub fn settle(p: &mut Parts)
    ensures moves { Settles p.old p.new }
    ensures alone { p.new ≡ record (with_lists (λ lists. p.new.machine.lists) p.old) { direct = [] } }
    ensures fits { HavePriorities p.old.machine }
{
    settle_by_lists(p);
}
