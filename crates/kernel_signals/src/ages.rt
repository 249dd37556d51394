//! Walks along all records, by age.
ghost use Rattle.std.specs.Prelude.{◌≡◌, ◌≤◌, length};
ghost use Rattle.std.specs.List.{list_any};
ghost use Rattle.rules_machine.specs.Lists.{is};
ghost use Rattle.kernel_signals.specs.Ages.{is_from, kept_for};
ghost use Rattle.kernel_signals.specs.Kept.{counted_in, records_of, weight_of};
ghost use Rattle.kernel_signals.specs.Timed.{AreTimed};

use crate::record::SignalRecord;
use crate::timed::Timed;
use parts_arrivals::Arrivals;
use words_numbers::{ObjId, SigCode, Tid};

/// How much a record of this code counts towards the limit.
pub(crate) fn weight(code: SigCode) -> u32
    ensures value { result ≡ weight_of code }
    ensures small { result ≤ 1 }
{
    match code {
        SigCode::User | SigCode::Queue => 1,
        SigCode::Timer | SigCode::Mesgq => 0,
    }
}

fn is_object(k: ObjId, object: Option<ObjId>) -> bool
    ensures { result ≡ is object k }
{
    match object {
        Some(other) => other.get() == k.get(),
        None => false,
    }
}

fn is_from(q: ObjId, kept: &SignalRecord) -> bool
    ensures { result ≡ is_from q kept.now }
{
    is_object(q, kept.queue())
}

fn is_for(t: Tid, target: Option<Tid>) -> bool
    ensures { result ≡ is target t }
{
    match target {
        Some(only) => only.get() == t.get(),
        None => false,
    }
}

/// Whether a record is from the queue's notification.
pub(crate) fn is_any_from(arrivals: &Arrivals, records: &[SignalRecord], q: ObjId) -> bool
    requires { arrivals.now.nodes ≡ length records.now }
    ensures { result ≡ list_any (is_from q) (records_of records.now arrivals.now.order) }
{
    let mut at = arrivals.oldest();
    while let Some(node) = at {
        if is_from(q, &records[node as usize]) {
            return true;
        }
        at = arrivals.after(node);
    }
    false
}

/// The records that are for the thread leave. The answer is how much those that stay count towards the limit.
pub(crate) fn drop_for(
    arrivals: &mut Arrivals,
    records: &[SignalRecord],
    timed: &mut Timed,
    t: Tid,
) -> u32
    requires known { arrivals.old.nodes ≡ length records.now }
    requires few { arrivals.old.nodes ≤ 65536 }
    requires long { length timed.old ≡ 256 }
    requires timed { AreTimed timed.old (records_of records.now arrivals.old.order) }
    ensures order { arrivals.new ≡ record arrivals.old { order = kept_for t records.now arrivals.old.order } }
    ensures counted { result ≡ counted_in (records_of records.now arrivals.new.order) }
    ensures long { length timed.new ≡ 256 }
    ensures timed { AreTimed timed.new (records_of records.now arrivals.new.order) }
{
    let mut stay = 0;
    let mut at = arrivals.oldest();
    while let Some(node) = at {
        at = arrivals.after(node);
        let kept = records[node as usize];
        if is_for(t, kept.target()) {
            arrivals.leave(node);
            timed.remove(kept.timer());
        } else {
            stay += weight(kept.code());
        }
    }
    stay
}
