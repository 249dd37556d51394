//! The items of an instant.
ghost use Rattle.std.specs.Prelude.{◌≡◌, ◌≤◌, ◌^◌, []};
ghost use Rattle.rules_machine.specs.DueItems.{instant};
ghost use Rattle.rules_flat_code.specs.FlatBodies.{flat_bodies};
ghost use Rattle.kernel_wakes.specs.Calls.{objects_in};
ghost use Rattle.kernel_leaps.specs.Fits.{ItemsFit};
ghost use Rattle.kernel_state.specs.Does.{Does};
ghost use Rattle.kernel_state.specs.Kernel.{after};
ghost use Rattle.kernel_settling.specs.Stood.{StoodRight};

use calls_items::do_item;
use kernel_state::Parts;
use parts_io::{NullSink, Sink};
use parts_tracer::Tracer;

/// All items of the instant.
#[inline(always)]
pub(crate) fn do_instant<K: Sink>(p: &mut Parts, out: &mut Tracer<'_, K>)
    requires quiet { p.old.direct ≡ [] }
    requires stood { StoodRight p.old.machine }
    requires fits { ItemsFit p.old (objects_in p.old) }
    requires early { p.old.machine.now ≤ 10 ^ 18 }
    ensures does { Does K.text K.faults (instant (flat_bodies p.old.code)) p.old p.new out.old out.new }
    ensures stood { StoodRight p.new.machine }
    ensures quiet { p.new.direct ≡ [] }
    ensures time { p.new.machine.now ≡ p.old.machine.now }
{
    'items: while let Some(i) = p.next_item() {
        do_item(p, i, out);
    }
}

/// All items of the instant, which are told nowhere.
pub(crate) fn handle_items(p: &mut Parts)
    requires quiet { p.old.direct ≡ [] }
    requires stood { StoodRight p.old.machine }
    requires fits { ItemsFit p.old (objects_in p.old) }
    requires early { p.old.machine.now ≤ 10 ^ 18 }
    ensures state { p.new ≡ after (instant (flat_bodies p.old.code)) p.old }
{
    let mut nothing = NullSink::new();
    let mut out = Tracer::new(&mut nothing);
    do_instant(p, &mut out);
}
