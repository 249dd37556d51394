//! The frames of a thread, the top one first, which so stands at a place of its own. Where one comes or goes, those below it are moved
//! field by field, and only as many passes of loops as a frame has.
ghost use Rattle.std.specs.Prelude.{◌≡◌, ◌≤◌, ◌<◌, ◌+◌, ◌-◌, ◌∷◌, [], drop, false, length, slice_index_or, slice_set, take};
ghost use Rattle.rules_bodies.specs.declared.cursor.Cursor.{Cursor};
ghost use Rattle.rules_bodies.specs.Next.{register_limit};
ghost use Rattle.rules_leaps.specs.Quiet.{frames_after};
ghost use Rattle.rules_machine.specs.State as machine;
ghost use Rattle.rules_machine.specs.Threads.{top_left};
ghost use Rattle.rules_machine.specs.Turns.{frames_answered};
ghost use Rattle.rules_machine.specs.Units.{begins_finish, is_at_end};
ghost use Rattle.rules_flat_code.specs.Placed.{ArePlaced};
ghost use Rattle.kernel_threads.specs.Passing.{HasTaken};
ghost use Rattle.kernel_threads.specs.Starting.{frame_at_start};

use crate::frame::Frame;
use crate::ran::Taken;
use parts_steps::Steps;
use rules_machine::{BodyOf, FrameKind};
use script_code::{Code, Fetched};
use std::marker::Model;
use std::sync::ledger::Ledger;
use words_numbers::Res;

/// At most three frames, the top one first.
#[derive(Drop)]
pub(crate) struct Frames {
    // what stands past the count is not read
    items: [Frame; 3],
    count: usize,
}

impl Model for Frames {
    ghost use Rattle.std.specs.Prelude.{◌≡◌, ◌≤◌, List, length, take};
    ghost use Rattle.rules_bodies.specs.declared.cursor.Cursor.{Cursor};
    ghost use Rattle.rules_machine.specs.State as machine;

    ghost Value = { List (machine.Frame Cursor) };

    ghost view = { λ f. take f.count f.items };

    ghost invariant = { λ f. (f.count ≤ 3) × (length f.items ≡ 3) };
}

impl Frames {
    pub(crate) fn new() -> Frames
        ensures { result ≡ [] }
    {
        Frames {
            items: [Frame::default(), Frame::default(), Frame::default()],
            count: 0,
        }
    }

    #[inline]
    pub(crate) fn as_slice(&self) -> &[Frame]
        ensures value { result.now ≡ self.now }
        ensures fits { length result.now ≤ 3 }
    {
        &self.items[..self.count]
    }

    /// None is there any more.
    pub(crate) fn clear(&mut self)
        ensures { self.new ≡ [] }
    {
        self.count = 0;
    }

    /// That one alone is there.
    pub(crate) fn begin_with(&mut self, main: Frame)
        ensures { self.new ≡ main ∷ [] }
    {
        self.items[0] = main;
        self.count = 1;
    }

    /// The frame stands over those that are there.
    pub(crate) fn put_on_top(&mut self, frame: Frame)
        requires { length self.old ≤ 2 }
        ensures { self.new ≡ frame ∷ self.old }
    {
        self.make_room();
        self.items[0] = frame;
    }

    /// A frame at the start of its body stands over those that are there.
    pub(crate) fn begin_on_top(&mut self, kind: FrameKind, body: BodyOf, number: u16, value: u64)
        requires limit { value ≤ register_limit }
        requires room { length self.old ≤ 2 }
        ensures { self.new ≡ frame_at_start kind body number value ∷ self.old }
    {
        self.make_room();
        self.items[0].restart(kind, body, number, value);
    }

    // One more is there, which stands for the new top, and those that were there stand below it.
    #[inline(always)]
    fn make_room(&mut self)
        requires { length self.old ≤ 2 }
        ensures below { drop 1 self.new ≡ self.old }
        ensures more { length self.new ≡ length self.old + 1 }
    {
        move_down(&mut self.items, self.count);
        self.count += 1;
    }

    /// The top frame is gone. Nothing changes where there is none.
    pub(crate) fn drop_top(&mut self)
        ensures { self.new ≡ drop 1 self.old }
    {
        if self.count > 0 {
            move_up(&mut self.items, self.count);
            self.count -= 1;
        }
    }

    /// The top body begins its next unit, as `Frame::begin` says; with no frame there is none.
    #[inline(always)]
    pub(crate) fn begin<L: Ledger>(&mut self, code: &Code, most: u64, steps: &mut Steps<L>) -> Taken
        requires placed { ArePlaced code.now self.old }
        requires whole { top_left self.old ≡ 0 }
        ensures { (th : machine.Thread Cursor) → th.frames ≡ self.old → is_at_end th ≡ false → HasTaken code.now most result th (record th { frames = self.new }) steps.old steps.new }
    {
        if self.count == 0 {
            return Taken {
                passed: 0,
                unit: Fetched::Finish,
                left: 0,
            };
        }
        self.items[0].begin(code, most, steps)
    }

    /// The top body is at its last tick.
    pub(crate) fn begin_finish(&mut self)
        ensures { (th : machine.Thread Cursor) → th.frames ≡ self.old → record th { frames = self.new } ≡ (begins_finish self.old th).thread }
    {
        if self.count > 0 {
            self.items[0].begin_finish();
        }
    }

    /// The last call of the top body has that answer.
    #[inline(always)]
    pub(crate) fn answer(&mut self, res: Res, value: u64)
        ensures { self.new ≡ frames_answered res value self.old }
    {
        if self.count > 0 {
            self.items[0].answer(res, value);
        }
    }

    /// The ticks of the top frame, of which so many are left, are k less.
    #[inline(always)]
    pub(crate) fn charge(&mut self, left: u64, k: u64)
        requires { left ≡ top_left self.old }
        ensures { self.new ≡ frames_after k self.old }
    {
        if self.count > 0 {
            self.items[0].set_left(left.saturating_sub(k));
        }
    }
}

// So many frames, at most two, stand one place further behind.
#[inline(always)]
#[tactic(auto)]
fn move_down(items: &mut [Frame], count: usize)
    requires three { length items.old ≡ 3 }
    requires room { count ≤ 2 }
    ensures moved { take count (drop 1 items.new) ≡ take count items.old }
    ensures three { length items.new ≡ 3 }
{
    if count > 1 {
        copy_down(items, 1);
        copy_down(items, 0);
        return;
    }
    if count > 0 {
        copy_down(items, 0);
    }
}

// Those of so many frames that stand behind the first stand one place further in front.
#[inline(always)]
#[tactic(auto)]
fn move_up(items: &mut [Frame], count: usize)
    requires three { length items.old ≡ 3 }
    requires few { count ≤ 3 }
    ensures moved { take (count - 1) items.new ≡ drop 1 (take count items.old) }
    ensures three { length items.new ≡ 3 }
{
    if count > 2 {
        copy_up(items, 0);
        copy_up(items, 1);
        return;
    }
    if count > 1 {
        copy_up(items, 0);
    }
}

// What stands there stands behind it too.
#[inline(always)]
#[tactic(auto, using(crate::proofs::Moving::copied_down))]
fn copy_down(items: &mut [Frame], at: usize)
    requires { at + 1 < length items.old }
    ensures { (f : machine.Frame Cursor) → items.new ≡ slice_set items.old (at + 1) (slice_index_or items.old at f) }
{
    let (front, back) = items.split_at_mut(at + 1);
    back[0].stand_as(&front[at]);
}

// What stands behind it stands there too.
#[inline(always)]
#[tactic(auto, using(crate::proofs::Moving::copied_up))]
fn copy_up(items: &mut [Frame], at: usize)
    requires { at + 1 < length items.old }
    ensures { (f : machine.Frame Cursor) → items.new ≡ slice_set items.old at (slice_index_or items.old (at + 1) f) }
{
    let (front, back) = items.split_at_mut(at + 1);
    front[at].stand_as(&back[0]);
}
