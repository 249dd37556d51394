//! The pending records.
ghost use Rattle.std.specs.Prelude.{◌≡◌, ◌↔◌, IsTrue, ◌≤◌, ◌<◌, ◌&&◌, ◌||◌, not, ℕ, ◌++◌, ◌∷◌, [], All, Contains, nat_le, length, replicate, slice_get, true, IfOk, IfSome};
ghost use Rattle.words_numbers.specs.Signals.{has_signal};
ghost use Rattle.std.specs.List.{list_any};
ghost use Rattle.rules_machine.specs.Lists.{is};
ghost use Rattle.rules_machine.specs.Lives.{without_target};
ghost use Rattle.rules_machine.specs.Signals.{record_limit, without_record};
ghost use Rattle.rules_machine.specs.State as machine;
ghost use Rattle.kernel_signals.specs.Choice.{is_in_set, may_take, selected_in, without_one};
ghost use Rattle.kernel_signals.specs.Kept.{counted_in, no_record, room};

use crate::ages::{drop_for, is_any_from, weight};
use crate::choice::{Wanted, first_wanted, lowest};
use crate::record::SignalRecord;
use crate::timed::Timed;
use parts_arrivals::Arrivals;
use parts_bits::words::has_no_bit;
use parts_filled::filled;
use std::alloc::{AllocError, Global};
use std::marker::Model;
use words_numbers::{ObjId, SigSet, Tid};

// The room for records: 64 of kill, tkill and sigqueue, 32 of timers, and 16 of queues.
const ROOM: u32 = 112;

// How many records of kill, tkill and sigqueue may be pending: SIGQUEUE_MAX.
const RECORD_LIMIT: u32 = 64;

/// The pending records, each with the serial at which it became pending.
#[derive(Drop)]
pub struct Pending {
    // the record of each node, with its signal as the rank
    arrivals: Arrivals,
    records: Vec<SignalRecord>,
    // those of kill, tkill and sigqueue
    counted: u32,
    timed: Timed,
}

impl Model for Pending {
    ghost use Rattle.std.specs.Prelude.{List};
    ghost use Rattle.rules_machine.specs.State as machine;
    ghost use Rattle.kernel_signals.specs.Kept.{AreKept, records_of};

    ghost Value = { List machine.SignalRecord };

    ghost view = { λ p. records_of p.records.items p.arrivals.order };

    ghost invariant = { λ p. AreKept p.arrivals p.records.items p.counted p.timed };
}

// The signals that the mask lets through and that the thread takes.
fn let_through(mask: SigSet, kills: SigSet, runs_handlers: bool) -> SigSet
    ensures { (signal : ℕ) → signal < 32 → has_signal result signal ≡ (not (has_signal mask signal) && (has_signal kills signal || runs_handlers)) }
{
    if runs_handlers {
        SigSet::new(!mask.bits())
    } else {
        SigSet::new(kills.bits() & !mask.bits())
    }
}

fn no_records(alloc: Global) -> Result<Vec<SignalRecord>, AllocError>
    ensures { IfOk result (λ v. v.items ≡ replicate room no_record) }
{
    filled(alloc, ROOM as usize, SignalRecord::of_kill(0, None))
}

impl Pending {
    /// Nothing is pending.
    pub fn open(alloc: Global) -> Result<Pending, AllocError>
        ensures { IfOk result (λ pending. pending ≡ []) }
    {
        let arrivals = Arrivals::open(alloc, ROOM)?;
        let records = no_records(alloc)?;
        Ok(Pending {
            arrivals,
            records,
            counted: 0,
            timed: Timed::none(),
        })
    }

    /// Whether nothing is pending.
    pub fn is_empty(&self) -> bool
        ensures { IsTrue result ↔ (self.now ≡ []) }
    {
        self.arrivals.is_empty()
    }

    /// Costs nothing when it runs: at most 112 records are pending.
    pub fn know_few(&self)
        ensures { length self.now ≤ room }
    {
        let _ = self.arrivals.len();
    }

    /// The record, of a signal from 0 to 31, becomes pending with this serial, which is above those of all that are.
    #[inline(always)]
    pub fn add(&mut self, generated: SignalRecord, serial: u64)
        requires signal { generated.signal < 32 }
        requires room { length self.old < room }
        requires youngest { All (λ (r : machine.SignalRecord). r.serial < serial) self.old }
        ensures { self.new ≡ self.old ++ record generated { serial = serial } ∷ [] }
    {
        let node = self.arrivals.enter(generated.signal());
        self.records[node as usize] = generated.pending_since(serial);
        self.counted += weight(generated.code());
        self.timed.add(generated.timer());
    }

    /// Takes the record that is selected among those of the set that are for the thread or for the process. None exactly where there is
    /// none.
    pub fn take_in(&mut self, t: Tid, set: SigSet) -> Option<SignalRecord>
        ensures value { result ≡ selected_in self.old (is_in_set t set) }
        ensures rest { self.new ≡ without_one (selected_in self.old (is_in_set t set)) self.old }
    {
        let node = lowest(&self.arrivals, &self.records, t, set)?;
        self.arrivals.leave(node);
        let taken = self.records[node as usize];
        self.counted -= weight(taken.code());
        self.timed.remove(taken.timer());
        Some(taken)
    }

    /// Whether the mask has the signals of all that are pending.
    #[inline(always)]
    pub fn are_masked(&self, mask: SigSet) -> bool
        ensures { IsTrue result ↔ All (λ (r : machine.SignalRecord). has_signal mask r.signal ≡ true) self.now }
    {
        let others = self.arrivals.ranks() & !mask.bits();
        has_no_bit(others as u64)
    }

    /// Whether as many records of kill, tkill and sigqueue are pending as may be, 64.
    pub fn is_full(&self) -> bool
        ensures { result ≡ nat_le record_limit (counted_in self.now) }
    {
        RECORD_LIMIT <= self.counted
    }

    /// The record that is selected among those of the set that are for the thread or for the process; it stays. None exactly where there
    /// is none.
    #[inline(always)]
    pub fn next_in(&self, t: Tid, set: SigSet) -> Option<SignalRecord>
        ensures value { result ≡ selected_in self.now (is_in_set t set) }
        ensures pending { IfSome result (λ r. Contains self.now r) }
        ensures signals { All (λ (r : machine.SignalRecord). r.signal < 32) self.now }
    {
        let node = lowest(&self.arrivals, &self.records, t, set)?;
        Some(self.records[node as usize])
    }

    /// The record that the sweep takes for the thread; it stays. It is selected among those for the thread or for the process that the
    /// thread's mask lets through, and that have a signal of `kills`, which ends the process, or find that the thread runs handlers.
    /// None exactly where there is none.
    #[inline(always)]
    pub fn next_for(
        &self,
        t: Tid,
        mask: SigSet,
        kills: SigSet,
        runs_handlers: bool,
    ) -> Option<SignalRecord>
        ensures value { result ≡ selected_in self.now (may_take t mask kills runs_handlers) }
        ensures pending { IfSome result (λ r. Contains self.now r) }
        ensures signals { All (λ (r : machine.SignalRecord). r.signal < 32) self.now }
    {
        self.next_in(t, let_through(mask, kills, runs_handlers))
    }

    /// The record at a place in the order in which they became pending, from 0 on; it stays. None exactly where not so many are pending.
    pub fn nth(&self, place: u32) -> Option<SignalRecord>
        ensures value { result ≡ slice_get self.now place }
        ensures few { IfSome result (λ _. place < 65536) }
    {
        let (node, _) = self.arrivals.nth(place)?;
        Some(self.records[node as usize])
    }

    /// The record is no longer pending.
    pub fn remove(&mut self, taken: &SignalRecord)
        requires { Contains self.old taken.now }
        ensures { self.new ≡ without_record taken.now self.old }
    {
        let wanted = Wanted::WithSerial(taken.serial());
        let node = first_wanted(&self.arrivals, &self.records, taken.signal(), &wanted).unwrap();
        self.arrivals.leave(node);
        let kept = self.records[node as usize];
        self.counted -= weight(kept.code());
        self.timed.remove(kept.timer());
    }

    /// The records that are for the thread are no longer pending.
    pub fn drop_for(&mut self, t: Tid)
        ensures { self.new ≡ without_target t self.old }
    {
        self.counted = drop_for(&mut self.arrivals, &self.records, &mut self.timed, t);
    }

    /// Whether a record of the timer is pending.
    pub fn is_pending_from_timer(&self, k: ObjId) -> bool
        ensures { result ≡ list_any (λ (r : machine.SignalRecord). is r.timer k) self.now }
    {
        self.timed.has_any(k)
    }

    /// Whether a record of the queue's notification is pending.
    pub fn is_pending_from_queue(&self, q: ObjId) -> bool
        ensures { result ≡ list_any (λ (r : machine.SignalRecord). is r.queue q) self.now }
    {
        is_any_from(&self.arrivals, &self.records, q)
    }
}
