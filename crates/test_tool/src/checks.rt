//! A trace beside that of a script, through the one call.
use crate::commands::{tells, written_before};
use std::test::Fail;
use tool_answers::Status;

// A script, the line `%%`, and no trace.
const INPUT: &str = "thread a fifo 5 at 0\nrun 3\nend\n%%\n";

#[test]
fn a_trace_is_compared(rt: HostRuntime) -> Result<(), Fail> {
    let text = "differs 1\nwant 0 start a\nhave nothing\n";
    assert!(rt;
        tells(
            rt.alloc(),
            &["check", "10"],
            INPUT.as_bytes(),
            Status::Differs,
            text
        )?
    );
    Ok(())
}

#[test]
fn a_failed_write(rt: HostRuntime) -> Result<(), Fail> {
    let written = written_before(rt.alloc(), &["check", "10"], INPUT.as_bytes(), 1)?;
    assert_eq!(rt; written, Some(0));
    Ok(())
}
