//! What is shown of instants through the one call.
use crate::commands::{begins, tells};
use std::test::Fail;
use tool_answers::Status;

// A script, and what is shown of its instant 11: worked by hand, as it stands in tests/worked among others that are shown.
const SCRIPT: &str =
    "timer k rt4 7\ntimer j rt5 0\naction rt2 run g\naction rt4 run g\nhandler g\nend\n\
    thread a fifo 5 at 0\nset 42\nsigmask block rt4,rt2\ntimer_settime k rel 3 4\n\
    timer_settime j abs 50 0\ncreate b\nsigqueue rt2 6\ntkill b rt2\nrun 6\nend\n\
    thread b fifo 4 dormant\nrun 1\nend\nthread c fifo 6 at 1\nsigmask block all\n\
    sigtimedwait rt1,rt0,rt1 20\nend\n";

const SHOWN: &str = "11 state\nlist 5 a\nlist 4 b\nthread a ready 5 5\nthread b ready 4 4\n\
    thread c blocked 6 6 sigtimedwait rt0,rt1 until 23\nmask a rt2,rt4\nmask b rt2,rt4\nmask c all\n\
    timer k 15 4\ntimer j 50 0\nsignal rt2 QUEUE 6 * USER 0 b\nsignal rt4 TIMER 7 *\n\
    now a 9 42 0 0\nleft a 3\nnow b 0 0 0 0\nnow c 2 0 0 0\n";

#[test]
fn an_instant_is_shown(rt: HostRuntime) -> Result<(), Fail> {
    assert!(rt;
        tells(
            rt.alloc(),
            &["show", "11"],
            SCRIPT.as_bytes(),
            Status::Done,
            SHOWN
        )?
    );
    Ok(())
}

// Where a write fails, what is written is a beginning of the text.
#[test]
fn first_writes_fail_in_turn(rt: HostRuntime) -> Result<(), Fail> {
    for failing in 1..18u64 {
        assert!(rt; begins(rt.alloc(), &["show", "11"], SCRIPT, SHOWN, failing)?);
    }
    Ok(())
}
