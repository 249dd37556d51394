//! What is read of texts that are accepted, and the limits at their edges.
use script_reader::{Decl, FaultKind, Kind, Script, ScriptEnd, read_script};
use std::alloc::{AllocError, Global};
use std::test::Fail;

// What reading a text of any length answers: no fault where it is a script.
pub(crate) fn fault_of(alloc: Global, text: &[u8]) -> Option<(u32, FaultKind)> {
    if text.len() > 1_048_576 {
        return None;
    }
    match read_script(alloc, text) {
        Err(ScriptEnd::Fault(line, kind)) => Some((line, kind)),
        _ => None,
    }
}

fn is_script(alloc: Global, text: &[u8]) -> bool {
    text.len() <= 1_048_576 && read_script(alloc, text).is_ok()
}

// A thread whose body has so many lines of one kind.
fn thread_of(alloc: Global, line: &[u8], times: u32) -> Result<Vec<u8>, AllocError> {
    let mut text = Vec::new(alloc);
    text.extend_from_slice(b"thread a fifo 5 at 0\n")?;
    for _ in 0..times {
        text.extend_from_slice(line)?;
    }
    text.extend_from_slice(b"end\n")?;
    Ok(text)
}

// Nested blocks inside of a thread.
fn nested(alloc: Global, blocks: u32) -> Result<Vec<u8>, AllocError> {
    let mut text = Vec::new(alloc);
    text.extend_from_slice(b"thread a fifo 5 at 0\n")?;
    for _ in 0..blocks {
        text.extend_from_slice(b"forever\n")?;
    }
    text.extend_from_slice(b"run 1\n")?;
    for _ in 0..blocks {
        text.extend_from_slice(b"end\n")?;
    }
    text.extend_from_slice(b"end\n")?;
    Ok(text)
}

// The kind of the first declaration, as a word.
fn first_kind(script: &Script) -> &'static str {
    match script.decls.items() {
        [Decl::Named(_, Kind::Thread { .. }), ..] => "thread",
        [Decl::Named(_, Kind::Handler { .. }), ..] => "handler",
        [Decl::Named(_, Kind::Cleanup { .. }), ..] => "cleanup",
        _ => "other",
    }
}

#[test]
fn comments_blanks_and_leading_zeros_say_nothing(rt: HostRuntime) -> Result<(), Fail> {
    let text = b"# c\nthread a fifo 007 at 0 # x\n\trun  01\nend".as_slice();
    let Ok(script) = read_script(rt.alloc(), text) else {
        assert!(rt; false);
        return Ok(());
    };
    assert_eq!(rt; script.quantum, 10);
    assert_eq!(rt; script.decls.items().len(), 1);
    assert_eq!(rt; first_kind(&script), "thread");
    Ok(())
}

#[test]
fn a_quantum_is_read_wherever_it_stands(rt: HostRuntime) -> Result<(), Fail> {
    let text = b"handler h\nend\nquantum 4\nthread a fifo 5 dormant\nend\n".as_slice();
    let Ok(script) = read_script(rt.alloc(), text) else {
        assert!(rt; false);
        return Ok(());
    };
    assert_eq!(rt; script.quantum, 4);
    assert_eq!(rt; script.decls.items().len(), 2);
    assert_eq!(rt; first_kind(&script), "handler");
    Ok(())
}

#[test]
fn steps_are_counted_to_their_limit(rt: HostRuntime) -> Result<(), Fail> {
    let most = thread_of(rt.alloc(), b"yield\n".as_slice(), 65_536)?;
    assert!(rt; is_script(rt.alloc(), most.as_slice()));
    let more = thread_of(rt.alloc(), b"yield\n".as_slice(), 65_537)?;
    assert_eq!(rt;
        fault_of(rt.alloc(), more.as_slice()),
        Some((65_538, FaultKind::TooMany))
    );
    Ok(())
}

#[test]
fn blocks_nest_to_their_limit(rt: HostRuntime) -> Result<(), Fail> {
    let most = nested(rt.alloc(), 15)?;
    assert!(rt; is_script(rt.alloc(), most.as_slice()));
    let more = nested(rt.alloc(), 16)?;
    assert_eq!(rt;
        fault_of(rt.alloc(), more.as_slice()),
        Some((17, FaultKind::TooMany))
    );
    Ok(())
}

#[test]
fn names_have_at_most_32_bytes(rt: HostRuntime) {
    let most = b"thread a2345678901234567890123456789012 fifo 5 at 0\nend\n".as_slice();
    assert!(rt; is_script(rt.alloc(), most));
    let more = b"thread a23456789012345678901234567890123 fifo 5 at 0\nend\n".as_slice();
    assert_eq!(rt; fault_of(rt.alloc(), more), Some((1, FaultKind::BadName)));
}

#[test]
fn signals_timers_and_queues_are_read(rt: HostRuntime) {
    let text =
        b"action rt5 run h\naction rt6 ignore\nhandler h\nend\ntimer k rt5 7\nqueue q 4 16 nonblock\n\
        thread a fifo 5 at 0\nsigmask block rt1,rt2\ntimer_settime k rel 5 5\nsigqueue rt1 9\nsigwaitinfo rt1\n\
        mq_notify q rt2 3\nmq_send q 8 1 reg\nmq_timedreceive q 40\nkill rt31\nend\n"
            .as_slice();
    assert!(rt; is_script(rt.alloc(), text));
}
