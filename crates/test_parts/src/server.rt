//! Servers of both kinds, by themselves.
use crate::numbers::{prio, tick};
use parts_server::{BudgetLine, Replenish, Server, ServerKind, budget_law};
use words_numbers::Params;

// The amount and the tick of a replenishment.
fn told(planned: Replenish) -> (u64, u64) {
    (planned.amount, planned.due.get())
}

// The capacity, what of it is consumed, and the priority by which the server runs.
fn stands(server: &Server) -> (u64, u64, u8) {
    (
        server.capacity(),
        server.consumed(),
        server.assigned().get(),
    )
}

// The high priority's ticks, the budget at first, what was refilled, and the capacity.
fn totals(server: &Server) -> [u64; 4] {
    let BudgetLine {
        high,
        init,
        refilled,
        capacity,
    } = server.totals();
    [high, init, refilled, capacity]
}

// A thread under a sporadic server with the priorities 8 and 2, period 10, budget 3 and at most 4 pending replenishments, that
// starts at 2 and first runs at 9. It is exhausted at 12, where its replenishment is due at once, and again at 15.
#[test]
fn a_thread_that_first_runs_late(rt: HostRuntime) {
    let params = Params::try_new(prio(8), prio(2), 10, 3, 4).expect(&rt, "parameters");
    let mut server = Server::new(params, ServerKind::Sporadic, tick(2));
    assert_eq!(rt; stands(&server), (3, 0, 8));
    server.charge(3);
    assert_eq!(rt; stands(&server), (0, 3, 2));
    let first = told(server.plan());
    let refilled = server.refill().map(told);
    assert_eq!(rt; (first, refilled), ((3, 12), Some((3, 12))));
    assert!(rt; server.refill().is_none());

    server.activate(tick(12));
    server.charge(3);
    assert_eq!(rt; told(server.plan()), (3, 22));
    assert_eq!(rt; totals(&server), [6, 3, 3, 0]);
    budget_law();
}

#[test]
fn a_high_priority_is_set(rt: HostRuntime) {
    let params = Params::try_new(prio(8), prio(2), 10, 3, 4).expect(&rt, "parameters");
    let mut server = Server::new(params, ServerKind::Sporadic, tick(2));
    server.set_high(prio(9));
    assert_eq!(rt; stands(&server), (3, 0, 9));
    assert_eq!(rt; server.kind(), ServerKind::Sporadic);
    assert!(rt; server.is_high() && server.next_due().is_none());
}

// The same thread under a strict server: its run begins at 9, so what it runs comes back at 19.
#[test]
fn a_strict_thread_that_first_runs_late(rt: HostRuntime) {
    let params = Params::try_new(prio(8), prio(2), 10, 3, 4).expect(&rt, "parameters");
    let mut server = Server::new(params, ServerKind::Strict, tick(2));
    assert_eq!(rt; server.kind(), ServerKind::Strict);
    server.activate(tick(9));
    server.charge(3);
    assert!(rt; !server.is_high());
    assert_eq!(rt; told(server.plan()), (3, 19));
    assert_eq!(rt; totals(&server), [3, 3, 0, 0]);
}

// A strict thread with a budget of 4 and at most one pending replenishment. Its run is cut off at 2 and goes on at 4; what the second
// run took joins the first, and both are due a period after the second began.
#[test]
fn a_run_that_is_cut_off(rt: HostRuntime) {
    let params = Params::try_new(prio(8), prio(2), 10, 4, 1).expect(&rt, "parameters");
    let mut server = Server::new(params, ServerKind::Strict, tick(0));
    server.charge(2);
    let first = told(server.plan());
    server.activate(tick(4));
    server.charge(2);
    let second = told(server.plan());
    assert_eq!(rt; [first, second], [(2, 10), (2, 14)]);
    let pending = (server.pending().len(), server.next_due());
    assert_eq!(rt; pending, (1, Some(tick(14))));
    assert_eq!(rt; server.refill().map(told), Some((4, 14)));
    assert_eq!(rt; stands(&server), (4, 0, 8));
}
