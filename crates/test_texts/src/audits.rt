//! Audits of traces, line by line, and the faults of heads. The verdicts were worked out by hand.
ghost use Rattle.std.specs.Prelude.{◌≤◌, length};

use std::alloc::{AllocError, Global};
use std::test::Fail;
use tool_audit::{Audit, AuditEnd, Breach, HeadFault};

const HEAD: &str = "server s 10 3 4\n";

const TWO: &str = "server s 10 3 4\nserver t 10 3 4\n";

const UP_TO_EXHAUSTION: &str =
    "0 start h\n0 dispatch h 9\n2 start s\n2 activate s 3\n9 exit h\n9 dispatch s 8\n12 exhaust s\n";

const BEHIND_THE_PLAN: &str =
    "12 refill s 3 3\n12 activate s 3\n15 exhaust s\n15 plan s 3 22\n17 end\n\
    thread s ticks 8 high 6 init 3 refilled 3 capacity 0\nthread h ticks 9\n";

// Both servers break a rule at the `end`: a plan of s is missing, and a refill of t.
const BOTH_BREAK: &str =
    "0 start s\n0 start t\n0 activate t 3\n0 dispatch t 8\n1 plan t 1 10\n1 dispatch s 8\n11 end\n";

// What stands between the exhaustion and the refill, and the first breach.
static PLANS: [(&str, Option<(u32, u8)>); 7] = [
    ("12 plan s 3 12\n", None),
    ("12 plan s 3 13\n", Some((8, 2))),
    ("12 plan s 2 12\n", Some((8, 2))),
    ("", Some((8, 3))),
    ("12 plan s 3 12\n13 idle\n", Some((9, 3))),
    ("12 plan s 3 12\n12 plan s 3 12\n", Some((9, 2))),
    ("11 plan s 3 12\n", Some((8, 1))),
];

// A head, a trace, and its first breach.
static TRACES: [(&str, &str, Option<(u32, u8)>); 14] = [
    (HEAD, "", Some((1, 1))),
    ("", "", Some((1, 1))),
    ("", "0 end\n", None),
    (HEAD, "0 start s\n", Some((2, 1))),
    (HEAD, "0 end\n", Some((2, 6))),
    (HEAD, "0 idle\n5 end\nthread s ticks 0", None),
    (
        HEAD,
        "0 idle\n5 end\nthread s ticks 0 high 0 init 3 refilled 0 capacity 3\n",
        Some((3, 6)),
    ),
    (
        HEAD,
        "0 idle\n5 end\nthread s ticks 0\nthread s ticks 0\n",
        Some((4, 6)),
    ),
    (HEAD, "0 idle\n5 end\n5 idle\n", Some((3, 1))),
    (HEAD, "0 idel\n5 end\n", Some((1, 1))),
    (HEAD, BOTH_BREAK, Some((7, 5))),
    ("server t 10 3 4\n", BOTH_BREAK, Some((7, 3))),
    (TWO, BOTH_BREAK, Some((7, 3))),
    (
        HEAD,
        "0 start s\n0 activate s 2\n0 dispatch s 8\n3 plan s 3 11\n",
        Some((2, 4)),
    ),
];

// A head, and the line and the kind of its fault.
static REFUSED: [(&str, u32, HeadFault); 14] = [
    ("server s 2 3 4\n", 1, HeadFault::ServerRange),
    ("server s 10 0 4\n", 1, HeadFault::ServerRange),
    ("server s 10 3 0\n", 1, HeadFault::ServerRange),
    ("server s 10 3 17", 1, HeadFault::ServerRange),
    ("server s 10 3\n", 1, HeadFault::WordCount),
    ("server s 10 3 4 5\n", 1, HeadFault::WordCount),
    ("serve s 10 3 4\n", 1, HeadFault::UnknownWord),
    ("server s 10 x 4\n", 1, HeadFault::BadNumber),
    ("server S 10 3 4\n", 1, HeadFault::BadName),
    (
        "server s 1000000000000000001 0 0\n",
        1,
        HeadFault::NumberRange,
    ),
    (
        "server s 2 3 4\nserver t 10 3 4\nserver t 10 3 4\n",
        3,
        HeadFault::DuplicateName,
    ),
    (
        "server s 2 3 4\nserver s 2 3 4\n\nserver t 10\n",
        4,
        HeadFault::WordCount,
    ),
    (
        "# none\nserver t 10 3 4 # some\n\x01\n",
        3,
        HeadFault::BadByte,
    ),
    (
        "server s 10 3 4\nserver t 2 3 4\n",
        2,
        HeadFault::ServerRange,
    ),
];

fn opened(alloc: Global, head: &str) -> Result<Audit, AuditEnd>
    requires { length head.now ≤ 67_108_864 }
{
    Audit::open(alloc, head.as_bytes())
}

fn first_breach(alloc: Global, head: &str, trace: &str) -> Option<(u32, u8)>
    requires head { length head.now ≤ 67_108_864 }
    requires trace { length trace.now ≤ 67_108_864 }
{
    match opened(alloc, head) {
        Err(_) => Some((0, 0)),
        Ok(mut audit) => audit
            .first_breach(trace.as_bytes())
            .map(|b| (b.line, b.rule)),
    }
}

#[test]
fn plans_behind_exhaustion(rt: HostRuntime) -> Result<(), Fail> {
    let alloc = rt.alloc();
    for &(plan, want) in &PLANS {
        let trace = format!(in alloc; "{UP_TO_EXHAUSTION}{plan}{BEHIND_THE_PLAN}")?;
        assert!(rt; trace.len() <= 1000);
        assert_eq!(rt; first_breach(alloc, HEAD, trace.as_str()), want, "{plan}");
    }
    Ok(())
}

#[test]
fn traces_by_hand(rt: HostRuntime) {
    for &(head, trace, want) in &TRACES {
        assert!(rt; head.len() <= 1000 && trace.len() <= 1000);
        assert_eq!(rt;
            first_breach(rt.alloc(), head, trace),
            want,
            "{head}{trace}"
        );
    }
}

#[test]
fn refused_heads(rt: HostRuntime) {
    for &(head, line, kind) in &REFUSED {
        assert!(rt; head.len() <= 1000);
        let end = opened(rt.alloc(), head).err();
        assert_eq!(rt; end, Some(AuditEnd::Fault(line, kind)), "{head}");
    }
    assert_eq!(rt; HeadFault::TooMany.number(), 13);
    assert_eq!(rt; HeadFault::ServerRange.name(), "ServerRange");
}

#[test]
fn lines_one_by_one(rt: HostRuntime) {
    let mut audit = opened(rt.alloc(), HEAD).expect(&rt, "a server");
    assert_eq!(rt; audit.line(b"0 start s"), None);
    assert_eq!(rt; audit.line(b"4 end"), None);
    assert_eq!(rt; audit.finish(), Some(6));
    assert_eq!(rt; audit.line(b"thread s ticks 1"), Some(6));
}

// Heads of so many servers.
fn many(alloc: Global, count: u32) -> Result<String, AllocError> {
    let mut text = String::new(alloc);
    for i in 0..count {
        let line = format!(in alloc; "server t{i} 10 3 4\n")?;
        text.push_str(line.as_str())?;
    }
    Ok(text)
}

#[test]
fn as_many_servers_as_may_be(rt: HostRuntime) {
    let text = many(rt.alloc(), 256).expect(&rt, "memory");
    assert!(rt; text.len() <= 67_108_864);
    let mut audit = opened(rt.alloc(), text.as_str()).expect(&rt, "servers");
    assert_eq!(rt;
        audit.first_breach(b"0 end\n"),
        Some(Breach { line: 2, rule: 6 })
    );
    let text = many(rt.alloc(), 300).expect(&rt, "memory");
    assert!(rt; text.len() <= 67_108_864);
    assert_eq!(rt;
        opened(rt.alloc(), text.as_str()).err(),
        Some(AuditEnd::Fault(257, HeadFault::TooMany))
    );
}
