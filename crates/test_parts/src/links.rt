//! Lists whose order is known.
use parts_links::Links;

#[test]
fn nodes_come_in_order(rt: HostRuntime) {
    let mut links = Links::open(rt.alloc(), 4, 2).expect(&rt, "memory");
    links.push_back(0, 1);
    links.push_back(0, 2);
    links.push_front(0, 0);
    links.insert_before(2, 3);
    let places = [
        links.front(0),
        links.next(0),
        links.next(1),
        links.nth(0, 2),
        links.nth(0, 4),
    ];
    assert_eq!(rt; places, [Some(0), Some(1), Some(3), Some(3), None]);
}

#[test]
fn a_node_goes(rt: HostRuntime) {
    let mut links = Links::open(rt.alloc(), 4, 2).expect(&rt, "memory");
    links.push_back(0, 1);
    links.push_back(0, 2);
    links.push_front(0, 0);
    links.unlink(1);
    let left = [
        links.next(0),
        links.next(2),
        links.front(1),
        links.list_of(1),
        links.list_of(2),
    ];
    assert_eq!(rt; left, [Some(2), None, None, None, Some(0)]);
}
