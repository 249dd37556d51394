//! A set of numbers from each of its words, and one of all numbers.
use parts_bits::BitSet;

#[test]
fn the_first_from_a_number(rt: HostRuntime) {
    let mut set = BitSet::empty();
    set.add(255);
    set.add(64);
    set.add(63);
    let first = [
        set.first_from(0),
        set.first_from(64),
        set.first_from(65),
        set.first_from(256),
    ];
    assert_eq!(rt; first, [Some(63), Some(64), Some(255), None]);
}

#[test]
fn a_number_is_alone(rt: HostRuntime) {
    let mut set = BitSet::empty();
    set.add(255);
    set.add(64);
    assert!(rt; !set.is_alone(64));
    set.remove(255);
    assert!(rt; set.is_alone(64) && !set.is_alone(0));
    set.remove(64);
    assert!(rt; set.is_alone(0));
    assert_eq!(rt; set.first_from(0), None);
}

#[test]
fn all_numbers(rt: HostRuntime) {
    let mut set = BitSet::empty();
    for number in 0..256 {
        set.add(number);
    }
    for number in 0..256 {
        assert_eq!(rt; set.first_from(number), Some(number));
    }
    for number in 0..256 {
        assert_eq!(rt; set.first_from(0), Some(number));
        set.remove(number);
    }
    assert_eq!(rt; set.first_from(0), None);
}
