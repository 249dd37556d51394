//! One run in which each write fails in turn, and each read.
use crate::commands::{run_from, tell};
use parts_io::{MemSink, MemSource, Source, StdSource};
use std::alloc::{AllocError, Global};
use std::io;
use std::io::{ErrorKind, Read};
use std::test::Fail;
use tool_answers::Status;

// A thread is cancelled in its condition wait, so that its cleanup handler runs as the owner of the mutex.
const SCRIPT: &str =
    "mutex m none\ncond c\ncleanup u\nunlock m\nend\nthread x fifo 5 at 0\nlock m\npush u\n\
    wait c m\npop 1\nend\nthread y fifo 5 at 0\nlock m\nwait c m\nunlock m\nend\n\
    thread z fifo 5 at 0\nlock m\nwait c m\nunlock m\nend\nthread k fifo 3 at 0\nlock m\n\
    cancel x\nbroadcast c\nunlock m\nend\n";

// The lines of its trace to tick 19.
static LINES: [&str; 35] = [
    "0 start x\n",
    "0 start y\n",
    "0 start z\n",
    "0 start k\n",
    "0 dispatch x 5\n",
    "1 return x lock 0 0\n",
    "2 return x push 0 0\n",
    "3 dispatch y 5\n",
    "4 return y lock 0 0\n",
    "5 dispatch z 5\n",
    "6 return z lock 0 0\n",
    "7 dispatch k 3\n",
    "8 return k lock 0 0\n",
    "9 return k cancel 0 0\n",
    "10 return k broadcast 0 0\n",
    "11 return k unlock 0 0\n",
    "11 cancel x\n",
    "11 dispatch x 5\n",
    "12 return x unlock 0 0\n",
    "12 return y wait 0 0\n",
    "14 exit x\n",
    "14 dispatch y 5\n",
    "15 return y unlock 0 0\n",
    "15 return z wait 0 0\n",
    "16 exit y\n",
    "16 dispatch z 5\n",
    "17 return z unlock 0 0\n",
    "18 exit z\n",
    "18 dispatch k 3\n",
    "19 exit k\n",
    "19 end\n",
    "thread x ticks 6\n",
    "thread y ticks 4\n",
    "thread z ticks 4\n",
    "thread k ticks 5\n",
];

// Whether a run whose write of this number fails has written this.
fn is_cut_off(alloc: Global, failing: u64, due: &[u8]) -> Result<bool, AllocError> {
    let (status, sink) = tell(alloc, &["run", "19"], SCRIPT.as_bytes(), failing)?;
    Ok(status == Status::WriteFault && sink.text() == due)
}

// Where the write of a line fails, the lines before it are written; there is one write a line.
#[test]
fn each_line_fails_in_turn(rt: HostRuntime) -> Result<(), Fail> {
    let mut due: Vec<u8> = Vec::new(rt.alloc());
    for k in 0..35usize {
        assert!(rt; is_cut_off(rt.alloc(), k as u64 + 1, due.as_slice())?);
        due.extend_from_slice(LINES[k].as_bytes())?;
    }
    let (status, sink) = tell(rt.alloc(), &["run", "19"], SCRIPT.as_bytes(), 36)?;
    assert!(rt; status == Status::Done && sink.text() == due.as_slice());
    Ok(())
}

// A comment line of 50 bytes.
const COMMENT: &str = "# a comment line that says nothing of the run....\n";

// The script behind 54 comment lines and a short one: 3,000 bytes.
fn long_script(alloc: Global) -> Result<Vec<u8>, AllocError> {
    let mut bytes: Vec<u8> = Vec::new(alloc);
    for _ in 0..54usize {
        bytes.extend_from_slice(COMMENT.as_bytes())?;
    }
    bytes.extend_from_slice("########################################\n".as_bytes())?;
    bytes.extend_from_slice(SCRIPT.as_bytes())?;
    Ok(bytes)
}

// The status of a run of what the source gives, and how many bytes it writes.
fn run_of<S: Source>(alloc: Global, source: &mut S) -> Result<(Status, usize), AllocError> {
    let mut sink = MemSink::open(alloc, 4000, Vec::new(alloc))?;
    let status = run_from(alloc, &["run", "19"], source, &mut sink)?;
    Ok((status, sink.text().len()))
}

// A run of a source in memory, whose read of this number fails.
fn run_in_memory(alloc: Global, failing: u64) -> Result<(Status, usize), AllocError> {
    let mut source = MemSource::new(long_script(alloc)?, vec![in alloc; failing; 1]?);
    run_of(alloc, &mut source)
}

// A source in memory gives 3,000 bytes at once, and then their end.
#[test]
fn each_read_of_a_long_script_fails_in_turn(rt: HostRuntime) -> Result<(), Fail> {
    assert_eq!(rt; long_script(rt.alloc())?.len(), 3000);
    for k in 1..3u64 {
        assert_eq!(rt; run_in_memory(rt.alloc(), k)?, (Status::ReadFault, 0));
    }
    assert_eq!(rt; run_in_memory(rt.alloc(), 3)?, (Status::Done, 573));
    Ok(())
}

// Gives at most 100 bytes a read, and fails at the read of this number.
#[derive(Drop)]
struct FailingReader {
    bytes: Vec<u8>,
    at: usize,
    calls: u64,
    failing: u64,
}

impl Read for FailingReader {
    fn read(&mut self, buf: &mut [u8]) -> io::Result<usize> {
        self.calls = self.calls.saturating_add(1);
        if self.calls == self.failing {
            return Err(io::Error::from(ErrorKind::BrokenPipe));
        }
        let rest = &self.bytes[self.at.min(self.bytes.len())..];
        let count = rest.len().min(buf.len()).min(100);
        buf[..count].copy_from_slice(&rest[..count]);
        self.at = self.at.saturating_add(count);
        Ok(count)
    }
}

// A run of a source that gives the script in pieces, whose read of this number fails.
fn run_in_pieces(alloc: Global, failing: u64) -> Result<(Status, usize), AllocError> {
    let mut source = StdSource::new(FailingReader {
        bytes: long_script(alloc)?,
        at: 0,
        calls: 0,
        failing,
    });
    run_of(alloc, &mut source)
}

// 30 pieces of the script, and its end.
#[test]
fn each_read_of_a_piece_fails_in_turn(rt: HostRuntime) -> Result<(), Fail> {
    for k in 1..32u64 {
        assert_eq!(rt; run_in_pieces(rt.alloc(), k)?, (Status::ReadFault, 0));
    }
    assert_eq!(rt; run_in_pieces(rt.alloc(), 32)?, (Status::Done, 573));
    Ok(())
}
