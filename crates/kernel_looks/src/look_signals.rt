//! A look at the pending signals.
ghost use Rattle.std.specs.Prelude.{ℕ, ◌≡◌, ◌∷◌, ◌<◌, [], false, length, slice_set, true};
ghost use Rattle.rules_facts.specs.Signals.{signal_fact};
ghost use Rattle.kernel_texts.specs.Lines.{fact_text};
ghost use Rattle.kernel_texts.specs.Rows.{left_out};
ghost use Rattle.kernel_texts.specs.Short.{HasShortText};
ghost use Rattle.kernel_texts.specs.Kept.{signals_kept};
ghost use Rattle.kernel_texts.specs.Picked.{left_in};
ghost use Rattle.kernel_seen.specs.FactSeen.{IsMemoryOf};
ghost use Rattle.kernel_looks.specs.Desk.{WentOn};
ghost use Rattle.kernel_looks.specs.Nothing.{TellsNothing};
ghost use Rattle.kernel_looks.specs.PendingSignals.{AreMarked};

use crate::desk::Desk;
use kernel_lines::Declared;
use kernel_object_facts::{left_out, print_signal};
use kernel_seen::FactSeen;
use kernel_state::Parts;
use parts_texts::NextText;

fn mark(marked: &mut [bool; 32], signal: u8)
    ensures marks { marked.new ≡ slice_set marked.old signal true }
    ensures long { length marked.new ≡ 32 }
{
    if usize::from(signal) < 32 {
        marked[usize::from(signal)] = true;
    }
}

// Which signals, by number, have a pending record.
#[inline(never)]
fn pending_signals(parts: &Parts) -> [bool; 32]
    ensures { AreMarked result parts.now.machine.pending }
{
    let mut marked = [false; 32];
    let mut place = 0;
    while let Some(r) = parts.pending_record(place) {
        mark(&mut marked, r.signal());
        place += 1;
    }
    marked
}

fn look_at_signal(
    parts: &Parts,
    decls: &Declared<'_>,
    signal: u8,
    is_pending: bool,
    left_out: Option<u64>,
    next: &mut NextText,
    desk: &mut Desk,
)
    requires silent { is_pending ≡ false → TellsNothing (signal_fact (left_in left_out parts.now.machine) signal) }
    requires memory { IsMemoryOf decls.now desk.old.told.texts desk.old.seen }
    ensures kept { WentOn next.old next.new desk.old desk.new (fact_text decls.now (signal_fact (left_in left_out parts.now.machine) signal) ∷ []) }
    ensures short { HasShortText decls.now (signal_fact (left_in left_out parts.now.machine) signal) }
    ensures memory { IsMemoryOf decls.now desk.new.told.texts desk.new.seen }
{
    if !is_pending {
        desk.go_over_nothing();
        return;
    }
    next.clear();
    let failed = print_signal(parts, decls, signal, left_out, next);
    desk.keep(next, failed, &FactSeen::Unseen);
}

// Looks at the signals, by number; those that have no pending record tell nothing.
fn look_at_signals_in_full(
    parts: &Parts,
    decls: &Declared<'_>,
    next: &mut NextText,
    desk: &mut Desk,
)
    requires memory { IsMemoryOf decls.now desk.old.told.texts desk.old.seen }
    ensures kept { WentOn next.old next.new desk.old desk.new (signals_kept decls.now (left_in (left_out parts.now.machine) parts.now.machine) 32) }
    ensures short { (signal : ℕ) → signal < 32 → HasShortText decls.now (signal_fact (left_in (left_out parts.now.machine) parts.now.machine) signal) }
    ensures memory { IsMemoryOf decls.now desk.new.told.texts desk.new.seen }
{
    let out_of_it = left_out(parts);
    let pending = pending_signals(parts);
    for signal in 0..32u8 {
        let is_pending = pending[usize::from(signal)];
        look_at_signal(parts, decls, signal, is_pending, out_of_it, next, desk);
    }
}

/// The same; where no record is pending, no signal is looked at by itself.
pub(crate) fn look_at_signals(
    parts: &Parts,
    decls: &Declared<'_>,
    next: &mut NextText,
    desk: &mut Desk,
)
    requires memory { IsMemoryOf decls.now desk.old.told.texts desk.old.seen }
    ensures kept { WentOn next.old next.new desk.old desk.new (signals_kept decls.now (left_in (left_out parts.now.machine) parts.now.machine) 32) }
    ensures short { (signal : ℕ) → signal < 32 → HasShortText decls.now (signal_fact (left_in (left_out parts.now.machine) parts.now.machine) signal) }
    ensures memory { IsMemoryOf decls.now desk.new.told.texts desk.new.seen }
{
    if parts.none_pending() {
        desk.go_over_nothings(32);
        return;
    }
    look_at_signals_in_full(parts, decls, next, desk);
}
