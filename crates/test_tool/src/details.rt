//! Traces with the facts that change, through the one call.
use crate::commands::{begins, tells};
use std::test::Fail;
use tool_answers::Status;

// A script and its detail to tick 10, as they stand in tests/worked among others and as tools/reference tells them: a mutex with a
// ceiling that is locked twice.
const SCRIPT: &str =
    "mutex m protect 7 recursive\nthread a fifo 2 at 0\nlock m\nrun 2\nunlock m\nend\nthread b fifo 5 at 1\n\
    trylock m\nlock m\nunlock m\nrun 1\nend\nthread c fifo 9 at 2\nlock m\nend\n";

const DETAIL: &str =
    "0 start a\n0 dispatch a 2\n0 list 2 a\n0 thread a ready 2 2\n1 return a lock 0 0\n1 start b\n1 list 7 a\n\
    1 list 5 b\n1 list 2\n1 thread a ready 2 7\n1 thread b ready 5 5\n1 mutex m a 1\n2 start c\n\
    2 dispatch c 9\n2 list 9 c\n2 thread c ready 9 9\n3 return c lock EINVAL 0\n4 exit c\n4 dispatch a 7\n\
    4 list 9\n4 thread c ended\n6 return a unlock 0 0\n6 dispatch b 5\n6 list 7\n6 list 2 a\n\
    6 thread a ready 2 2\n6 mutex m\n7 return b trylock 0 0\n7 list 7 b\n7 list 5\n7 thread b ready 5 7\n\
    7 mutex m b 1\n8 return b lock 0 0\n8 mutex m b 2\n9 return b unlock 0 0\n9 mutex m b 1\n10 end\n\
    thread a ticks 4\nthread b ticks 4\nthread c ticks 2\n";

#[test]
fn a_run_is_told_in_detail(rt: HostRuntime) -> Result<(), Fail> {
    assert!(rt;
        tells(
            rt.alloc(),
            &["detail", "10"],
            SCRIPT.as_bytes(),
            Status::Done,
            DETAIL
        )?
    );
    Ok(())
}

// Where a write fails, what is written is a beginning of the text.
#[test]
fn first_lines_fail_in_turn(rt: HostRuntime) -> Result<(), Fail> {
    for failing in 1..12u64 {
        assert!(rt; begins(rt.alloc(), &["detail", "10"], SCRIPT, DETAIL, failing)?);
    }
    Ok(())
}
