//! Setting CLOCK_REALTIME.
ghost use Rattle.std.specs.Prelude.{◌≤◌, ◌<◌, ◌^◌, length};
ghost use Rattle.words_numbers.specs.declared.res.Res.TheVariants as res;
ghost use Rattle.rules_machine.specs.Clock.{sets_real_clock};
ghost use Rattle.rules_machine.specs.Turns.{returns, ◌▷◌};
ghost use Rattle.kernel_state.specs.Does.{Does};
ghost use Rattle.kernel_state.specs.Caller.{caller};
ghost use Rattle.kernel_state.specs.RealTimes.{sets_clock};

use kernel_state::{Caller, Parts};
use parts_io::Sink;
use parts_tracer::Tracer;
use words_numbers::{GREATEST_NUMBER, Res};

// The clock reads that time now, and the call returns.
fn set_and_return<K: Sink>(p: &mut Parts, by: &Caller<'_>, reading: u64, out: &mut Tracer<'_, K>)
    requires known { by.now.thread < length p.old.names }
    requires reading { reading ≤ 10 ^ 18 }
    requires early { p.old.machine.now ≤ 10 ^ 18 }
    ensures { Does K.text K.faults (λ s. s ▷ sets_clock reading ▷ returns (caller by.now) res.Zero 0) p.old p.new out.old out.new }
{
    p.set_real_clock(reading);
    p.returns(by, Res::Zero, 0, out);
}

/// `clock_settime` of CLOCK_REALTIME: it reads that time now, and each absolute time on it comes when it is read. EINVAL where the time is
/// above 10^18.
pub(crate) fn clock_settime<K: Sink>(
    p: &mut Parts,
    by: &Caller<'_>,
    reading: u64,
    out: &mut Tracer<'_, K>,
)
    requires known { by.now.thread < length p.old.names }
    requires early { p.old.machine.now ≤ 10 ^ 18 }
    ensures { Does K.text K.faults (sets_real_clock (caller by.now) reading) p.old p.new out.old out.new }
{
    if reading > GREATEST_NUMBER {
        p.returns(by, Res::Inval, 0, out);
    } else {
        set_and_return(p, by, reading, out);
    }
}
