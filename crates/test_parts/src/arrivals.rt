//! Four nodes, of which some come.
use parts_arrivals::Arrivals;
use std::test::Fail;

#[test]
fn nodes_come(rt: HostRuntime) {
    let mut arrivals = Arrivals::open(rt.alloc(), 4).expect(&rt, "memory");
    assert!(rt; arrivals.is_empty());
    let first = arrivals.enter(5);
    let second = arrivals.enter(31);
    let third = arrivals.enter(5);
    let told = [
        arrivals.first(5),
        arrivals.next(first),
        arrivals.oldest(),
        arrivals.after(first),
    ];
    assert_eq!(rt; told, [Some(first), Some(third), Some(first), Some(second)]);
    assert_eq!(rt; arrivals.nth(2), Some((third, 5)));
}

#[test]
fn ranks_of_the_nodes(rt: HostRuntime) {
    let mut arrivals = Arrivals::open(rt.alloc(), 4).expect(&rt, "memory");
    arrivals.enter(5);
    arrivals.enter(31);
    assert_eq!(rt; arrivals.ranks(), 1 << 5 | 1 << 31);
    assert_eq!(rt; arrivals.highest(), Some(31));
    assert_eq!(rt; arrivals.len(), 2);
}

#[test]
fn a_node_leaves(rt: HostRuntime) -> Result<(), Fail> {
    let mut arrivals = Arrivals::open(rt.alloc(), 4)?;
    let first = arrivals.enter(5);
    let second = arrivals.enter(31);
    arrivals.leave(second);
    let left = (arrivals.highest(), arrivals.first(5), arrivals.first(31));
    assert_eq!(rt; left, (Some(5), Some(first), None));
    assert!(rt; !arrivals.is_full());
    Ok(())
}
