//! Records for two threads and for the process.
use crate::numbers::{object, thread};
use kernel_signals::{Pending, SignalRecord};
use words_numbers::{SigCode, SigSet};

// The signal, the value and the serial number of a record.
fn told(record: Option<SignalRecord>) -> Option<(u8, u64, u64)> {
    let record = record?;
    Some((record.signal(), record.value(), record.serial()))
}

// The record that the second thread takes.
fn taken(pending: &mut Pending) -> Option<(u8, u64, u64)> {
    told(pending.take_in(thread(1), SigSet::new(u32::MAX)))
}

// The record that the first thread is to take, which masks these signals; each of them kills.
fn due(pending: &Pending, mask: u32, runs_handlers: bool) -> Option<(u8, u64, u64)> {
    let mask = SigSet::new(mask);
    told(pending.next_for(thread(0), mask, mask, runs_handlers))
}

#[test]
fn the_lowest_signal_and_of_it_the_oldest(rt: HostRuntime) {
    let mut pending = Pending::open(rt.alloc()).expect(&rt, "memory");
    pending.add(SignalRecord::of_sigqueue(9, 90), 1);
    pending.add(SignalRecord::of_kill(4, Some(thread(1))), 2);
    pending.add(SignalRecord::of_timer(object(3), 9, 91), 3);
    assert!(rt; !pending.is_full());
    let places = [told(pending.nth(2)), told(pending.nth(3))];
    assert_eq!(rt; places, [Some((9, 91, 3)), None]);
    let due = [
        due(&pending, 0, true),
        due(&pending, 0, false),
        due(&pending, u32::MAX, true),
    ];
    assert_eq!(rt; due, [Some((9, 90, 1)), None, None]);
    let taken = [
        taken(&mut pending),
        taken(&mut pending),
        taken(&mut pending),
        taken(&mut pending),
    ];
    assert_eq!(rt;
        taken,
        [Some((4, 0, 2)), Some((9, 90, 1)), Some((9, 91, 3)), None]
    );
}

#[test]
fn a_record_is_removed(rt: HostRuntime) {
    let mut pending = Pending::open(rt.alloc()).expect(&rt, "memory");
    pending.add(SignalRecord::of_queue(object(2), 7, 70), 5);
    pending.add(SignalRecord::of_kill(8, None), 6);
    let every = SigSet::new(u32::MAX);
    let first = pending.next_in(thread(0), every).expect(&rt, "a record");
    pending.remove(&first);
    let left = told(pending.next_in(thread(0), every));
    assert_eq!(rt; left, Some((8, 0, 6)));
}

#[test]
fn a_record_tells_where_it_comes_from(rt: HostRuntime) {
    let record = SignalRecord::of_queue(object(2), 7, 70);
    let other = SignalRecord::of_timer(object(3), 9, 91);
    assert_eq!(rt; record.code(), SigCode::Mesgq);
    assert!(rt; record.target().is_none());
    assert_eq!(rt;
        [record.queue(), other.timer()],
        [Some(object(2)), Some(object(3))]
    );
}
