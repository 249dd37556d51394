//! Worked examples through the one call.
ghost use Rattle.std.specs.Prelude.{◌≡◌};

use parts_io::{MemSink, MemSource, Sink, Source, SureSource};
use parts_steps::Steps;
use std::alloc::{AllocError, Global};
use std::marker::Brand;
use std::sync::ledger::{Blank, Ledger};
use std::test::Fail;
use tool_answers::Status;
use tool_commands::run_tool;

const ONE_THREAD: &str = "thread a fifo 5 at 0\nrun 3\nend\n";

const ONE_TRACE: &str = "0 start a\n0 dispatch a 5\n4 exit a\n4 idle\n10 end\nthread a ticks 4\n";

fn run_counted<S: Source, K: Sink, L: Ledger>(
    alloc: Global,
    words: &[String],
    source: &mut S,
    sink: &mut K,
    blank: Blank,
) -> Status
    requires name { blank.name ≡ L.name }
    requires parts { blank.parts ≡ L.parts }
    requires one { L.parts ≡ 1 }
{
    let mut steps = Steps::<L>::new(blank);
    run_tool(alloc, words, source, sink, &mut steps)
}

fn words_of(alloc: Global, list: &[&str]) -> Result<Vec<String>, AllocError> {
    let mut words = Vec::new(alloc);
    for word in list {
        words.push(word.to_string(alloc)?)?;
    }
    Ok(words)
}

// Carries out the command of the words.
pub(crate) fn run_from<S: Source, K: Sink>(
    alloc: Global,
    list: &[&str],
    source: &mut S,
    sink: &mut K,
) -> Result<Status, AllocError> {
    let words = words_of(alloc, list)?;
    Ok(run_counted::<_, _, Brand>(alloc, words.as_slice(), source, sink, Blank::new(1)))
}

// The status and the text of a command on an input, where the write of this number fails.
pub(crate) fn tell(
    alloc: Global,
    words: &[&str],
    input: &[u8],
    failing: u64,
) -> Result<(Status, MemSink), AllocError> {
    let mut source = SureSource::new(Vec::from_slice(alloc, input)?);
    let mut sink = MemSink::open(alloc, 4000, vec![in alloc; failing; 1]?)?;
    let status = run_from(alloc, words, &mut source, &mut sink)?;
    Ok((status, sink))
}

// Whether a command ends with this status on an input, and tells this.
pub(crate) fn tells(
    alloc: Global,
    words: &[&str],
    input: &[u8],
    status: Status,
    text: &str,
) -> Result<bool, AllocError> {
    let (found, sink) = tell(alloc, words, input, 0)?;
    Ok(found == status && sink.text() == text.as_bytes())
}

// How many bytes are written before the write of this number, which fails.
pub(crate) fn written_before(
    alloc: Global,
    words: &[&str],
    input: &[u8],
    failing: u64,
) -> Result<Option<usize>, AllocError> {
    let (status, sink) = tell(alloc, words, input, failing)?;
    if status != Status::WriteFault {
        return Ok(None);
    }
    Ok(Some(sink.text().len()))
}

// Whether what is written before the write of this number, which fails, is a beginning of the text.
pub(crate) fn begins(
    alloc: Global,
    words: &[&str],
    input: &str,
    text: &str,
    failing: u64,
) -> Result<bool, AllocError> {
    let (status, sink) = tell(alloc, words, input.as_bytes(), failing)?;
    Ok(status == Status::WriteFault && text.as_bytes().starts_with(sink.text()))
}

// The status of a command where the read of this number fails; none where it has written something.
fn unread(
    alloc: Global,
    words: &[&str],
    input: &[u8],
    failing: u64,
) -> Result<Option<Status>, AllocError> {
    let mut source = MemSource::new(Vec::from_slice(alloc, input)?, vec![in alloc; failing; 1]?);
    let mut sink = MemSink::open(alloc, 100, Vec::new(alloc))?;
    let status = run_from(alloc, words, &mut source, &mut sink)?;
    if !sink.text().is_empty() {
        return Ok(None);
    }
    Ok(Some(status))
}

// Whether the words are no command, and nothing is read.
fn is_usage(alloc: Global, words: &[&str]) -> Result<bool, AllocError> {
    let mut source = MemSource::new(Vec::new(alloc), vec![in alloc; 1u64; 1]?);
    let mut sink = MemSink::open(alloc, 100, Vec::new(alloc))?;
    let status = run_from(alloc, words, &mut source, &mut sink)?;
    Ok(status == Status::Usage && sink.text() == b"usage: pse52 COMMAND NUMBERS\n".as_slice())
}

#[test]
fn words_that_are_no_command(rt: HostRuntime) -> Result<(), Fail> {
    let alloc = rt.alloc();
    assert!(rt;
        is_usage(alloc, &[])?
            && is_usage(alloc, &["run", "1x"])?
            && is_usage(alloc, &["walk", "1"])?
    );
    Ok(())
}

#[test]
fn each_write_fails_in_turn(rt: HostRuntime) -> Result<(), Fail> {
    let written = [0, 10, 25, 34, 41, 48];
    for k in 0..6usize {
        let found = written_before(
            rt.alloc(),
            &["run", "10"],
            ONE_THREAD.as_bytes(),
            k as u64 + 1,
        )?;
        assert_eq!(rt; found, Some(written[k]));
    }
    Ok(())
}

#[test]
fn each_read_fails_in_turn(rt: HostRuntime) -> Result<(), Fail> {
    for k in 1..3u64 {
        let found = unread(rt.alloc(), &["run", "10"], ONE_THREAD.as_bytes(), k)?;
        assert_eq!(rt; found, Some(Status::ReadFault));
    }
    Ok(())
}

#[test]
fn an_audit_and_a_check_whose_source_fails(rt: HostRuntime) -> Result<(), Fail> {
    let input = b"%%\n0 end\n".as_slice();
    let audit = unread(rt.alloc(), &["audit"], input, 1)?;
    let check = unread(rt.alloc(), &["check", "10"], input, 2)?;
    assert_eq!(rt;
        [audit, check],
        [Some(Status::ReadFault), Some(Status::ReadFault)]
    );
    Ok(())
}

// Where an allocation is refused, as `rt try --test --fail-alloc N` does, want of memory is answered and nothing is
// written; any other answer is the whole run's.
#[test]
fn one_run_is_whole_or_lacks_memory(rt: HostRuntime) -> Result<(), Fail> {
    let Ok((status, sink)) = tell(rt.alloc(), &["run", "10"], ONE_THREAD.as_bytes(), 0) else {
        return Ok(());
    };
    if status == Status::OutOfMemory {
        assert!(rt; sink.text().is_empty());
        return Ok(());
    }
    assert_eq!(rt; status, Status::Done);
    assert_eq!(rt; sink.text(), ONE_TRACE.as_bytes());
    Ok(())
}
