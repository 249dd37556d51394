//! The search for a record, along the lists of the signals.
ghost use Rattle.std.specs.Prelude.{◌≡◌, ◌≤◌, ◌<◌, true, length, IfSome, MatchOption};
ghost use Rattle.rules_machine.specs.Signals.{may_go_to};
ghost use Rattle.parts_arrivals.specs.Arrivals.{AreArrivals, has_come};
ghost use Rattle.kernel_signals.specs.Choice.{IsLowest, NoneBelow, first_wanted, is_wanted};

use crate::record::SignalRecord;
use parts_arrivals::Arrivals;
use parts_bits::words::first_bit;
use words_numbers::{SigSet, Tid};

/// What is asked of a record: that it may go to a thread, or that it has a serial.
#[derive(Clone, Copy)]
pub(crate) enum Wanted {
    ForThread(Tid),
    WithSerial(u64),
}

fn may_go_to(t: Tid, target: Option<Tid>) -> bool
    ensures { result ≡ may_go_to t target }
{
    match target {
        Some(only) => only.get() == t.get(),
        None => true,
    }
}

fn is_wanted(wanted: &Wanted, kept: &SignalRecord) -> bool
    ensures { result ≡ is_wanted wanted.now kept.now }
{
    match *wanted {
        Wanted::ForThread(t) => may_go_to(t, kept.target()),
        Wanted::WithSerial(serial) => kept.serial() == serial,
    }
}

/// The node of the oldest record of the signal, 0 to 31, that is wanted. None exactly where there is none.
pub(crate) fn first_wanted(
    arrivals: &Arrivals,
    records: &[SignalRecord],
    signal: u8,
    wanted: &Wanted,
) -> Option<u32>
    requires signal { signal < 32 }
    requires known { arrivals.now.nodes ≡ length records.now }
    ensures first { result ≡ first_wanted wanted.now signal records.now arrivals.now.order }
    ensures came { IfSome result (λ n. has_come n arrivals.now.order ≡ true) }
    ensures known { IfSome result (λ n. n < arrivals.now.nodes) }
{
    let mut at = arrivals.first(signal);
    while let Some(node) = at {
        if is_wanted(wanted, &records[node as usize]) {
            return at;
        }
        at = arrivals.next(node);
    }
    None
}

/// The node of the record that is selected among those of the set that may go to the thread. None exactly where there is none. It looks
/// only at signals of the set that have records.
#[inline(always)]
pub(crate) fn lowest(
    arrivals: &Arrivals,
    records: &[SignalRecord],
    t: Tid,
    set: SigSet,
) -> Option<u32>
    requires { arrivals.now.nodes ≡ length records.now }
    ensures lowest { MatchOption result (NoneBelow t set records.now arrivals.now.order 32) (λ n. IsLowest t set records.now arrivals.now.order n) }
    ensures came { IfSome result (λ n. has_come n arrivals.now.order ≡ true) }
    ensures arrivals { AreArrivals arrivals.now }
{
    let asked = (set.bits() & arrivals.ranks()) as u64;
    let mut at = first_bit(asked, 0);
    while let Some(signal) = at {
        let first = first_wanted(arrivals, records, signal as u8, &Wanted::ForThread(t));
        if first.is_some() {
            return first;
        }
        at = first_bit(asked, signal + 1);
    }
    None
}
