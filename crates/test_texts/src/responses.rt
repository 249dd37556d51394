//! The lines of three tasks, whole and cut off.
ghost use Rattle.std.specs.Prelude.{◌≡◌, ◌^◌, ◌≤◌};

use parts_io::{Failed, MemSink, Sink};
use parts_steps::Steps;
use std::marker::Brand;
use std::sync::ledger::{Blank, Ledger};
use std::test::Fail;
use tool_report::put_responses;
use tool_times::Tasks;

const THREE: &str = "task a 3 1 4 0\ntask b 2 2 6 0\ntask c 1 3 12 0\n";

fn put_counted<K: Sink, L: Ledger>(
    tasks: &Tasks,
    bound: u64,
    sink: &mut K,
    blank: Blank,
) -> Result<(), Failed>
    requires small { bound ≤ 10 ^ 8 }
    requires name { blank.name ≡ L.name }
    requires parts { blank.parts ≡ L.parts }
    requires one { L.parts ≡ 1 }
{
    let mut steps = Steps::<L>::new(blank);
    put_responses(tasks, bound, sink, &mut steps)
}

fn put<K: Sink>(tasks: &Tasks, bound: u64, sink: &mut K) -> Result<(), Failed>
    requires { bound ≤ 10 ^ 8 }
{
    put_counted::<_, Brand>(tasks, bound, sink, Blank::new(1))
}

#[test]
fn lines_in_order(rt: HostRuntime) -> Result<(), Fail> {
    let tasks = Tasks::open(rt.alloc(), THREE.as_bytes()).expect(&rt, "three tasks");
    let mut sink = MemSink::open(rt.alloc(), 100, Vec::new(rt.alloc()))?;
    assert!(rt; put(&tasks, 9, &mut sink).is_ok());
    assert_eq!(rt;
        sink.text(),
        b"task a response 1\ntask b response 3\ntask c none\n".as_slice()
    );
    Ok(())
}

// Each line is one write, and none is tried after one that failed.
#[test]
fn each_write_fails_in_turn(rt: HostRuntime) -> Result<(), Fail> {
    let tasks = Tasks::open(rt.alloc(), THREE.as_bytes()).expect(&rt, "three tasks");
    let written = [0, 18, 36];
    for k in 0..3usize {
        let fails = vec![in rt.alloc(); k as u64 + 1; 1]?;
        let mut sink = MemSink::open(rt.alloc(), 100, fails)?;
        assert!(rt; put(&tasks, 12, &mut sink).is_err());
        assert_eq!(rt; sink.text().len(), written[k]);
    }
    Ok(())
}
