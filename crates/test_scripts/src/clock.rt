//! The words of the clock that can be set: the lines that are read, and the faults of those that are not. What is expected
//! comes from the reference simulator in tools/reference, which reads by another program.
use parts_io::MemSink;
use script_reader::{FaultKind, ScriptEnd, read_script};
use script_writer::write_script;
use std::alloc::{AllocError, Global};
use std::test::Fail;

// A script with this line in the body of a thread, behind one thing of each sort.
fn text_with(alloc: Global, line: &str) -> Result<Vec<u8>, AllocError> {
    let mut text = Vec::new(alloc);
    text.extend_from_slice(b"quantum 10\nmutex m none\ncond c\nsem s 1\nqueue q 1 8\n")?;
    text.extend_from_slice(b"timer k rt1 0 real\nthread a fifo 5 at 0\n")?;
    text.extend_from_slice(line.as_bytes())?;
    text.extend_from_slice(b"\nend\n")?;
    Ok(text)
}

// Whether a text is a script, and its own canonical text.
fn is_read_back(alloc: Global, text: &[u8]) -> Result<bool, AllocError> {
    if text.len() > 1_048_576 {
        return Ok(false);
    }
    let Ok(script) = read_script(alloc, text) else {
        return Ok(false);
    };
    let mut sink = MemSink::open(alloc, 1000, Vec::new(alloc))?;
    let is_written = write_script(&script, &mut sink).is_ok();
    Ok(is_written && sink.text() == text)
}

static READ: [&str; 12] = [
    "clock_settime 5",
    "clock_settime reg",
    "clock_settime 1000000000000000000",
    "real_gettime",
    "timedlock m 5 real",
    "timedlock m reg real",
    "timedwait c m 5 real",
    "sem_timedwait s 5 real",
    "clock_nanosleep 5 real",
    "mq_timedsend q 1 2 3 4 real",
    "mq_timedsend q 1 2 reg reg real",
    "mq_timedreceive q 5 real",
];

#[test]
fn lines_of_the_clock(rt: HostRuntime) -> Result<(), Fail> {
    let alloc = rt.alloc();
    for &line in &READ {
        let text = text_with(alloc, line)?;
        assert!(rt; is_read_back(alloc, text.as_slice())?);
    }
    Ok(())
}

// Whether the line of a thread is the least fault, of this kind.
fn is_refused(alloc: Global, kind: FaultKind, line: &str) -> Result<bool, AllocError> {
    let text = text_with(alloc, line)?;
    if text.len() > 1_048_576 {
        return Ok(false);
    }
    match read_script(alloc, text.as_slice()) {
        Err(ScriptEnd::Fault(at, found)) => Ok(at == 8 && found == kind),
        _ => Ok(false),
    }
}

fn are_refused(alloc: Global, kind: FaultKind, lines: &[&str]) -> Result<bool, AllocError> {
    for &line in lines {
        if !is_refused(alloc, kind, line)? {
            return Ok(false);
        }
    }
    Ok(true)
}

static WORD_COUNT: [&str; 9] = [
    "clock_settime",
    "clock_settime 5 real",
    "real_gettime 5",
    "timedlock m 5 really",
    "timedlock m 5 real real",
    "nanosleep 5 real",
    "sigtimedwait rt1 5 real",
    "timer_settime k abs 5 0 real",
    "lock m real",
];

static BAD_NUMBER: [&str; 3] = [
    "clock_settime now",
    "timedlock m real",
    "clock_nanosleep real",
];

static NUMBER_RANGE: [&str; 2] = [
    "clock_settime 1000000000000000001",
    "timedlock m 1000000000000000001 real",
];

static UNKNOWN_WORD: [&str; 2] = ["timer_settime k real 5 0", "real"];

#[test]
fn lines_that_are_none(rt: HostRuntime) -> Result<(), Fail> {
    let alloc = rt.alloc();
    assert!(rt; are_refused(alloc, FaultKind::WordCount, &WORD_COUNT)?);
    assert!(rt; are_refused(alloc, FaultKind::BadNumber, &BAD_NUMBER)?);
    assert!(rt; are_refused(alloc, FaultKind::NumberRange, &NUMBER_RANGE)?);
    assert!(rt; are_refused(alloc, FaultKind::UnknownWord, &UNKNOWN_WORD)?);
    assert!(rt; is_refused(alloc, FaultKind::WrongKind, "timedlock s 5 real")?);
    assert!(rt; is_refused(alloc, FaultKind::NotHere, "timer t rt1 5 real")?);
    Ok(())
}
