//! A source is read whole before the first write: a reader and a writer share the count of the reads.
use crate::commands::run_from;
use parts_io::{StdSink, StdSource};
use std::alloc::{AllocError, Global};
use std::cell::Cell;
use std::io;
use std::io::{ErrorKind, Read, Write};
use std::rc::Rc;
use std::test::Fail;
use tool_answers::Status;

// Gives at most `width` bytes a read, and counts the reads.
#[derive(Drop)]
struct CountedReader {
    bytes: Vec<u8>,
    at: usize,
    width: usize,
    reads: Rc<Cell<u64>>,
}

impl Read for CountedReader {
    fn read(&mut self, buf: &mut [u8]) -> io::Result<usize> {
        self.reads.set(self.reads.get().saturating_add(1));
        let rest = &self.bytes[self.at.min(self.bytes.len())..];
        let count = rest.len().min(buf.len()).min(self.width);
        buf[..count].copy_from_slice(&rest[..count]);
        self.at = self.at.saturating_add(count);
        Ok(count)
    }
}

// Keeps how many reads were made before its first write, or fails at each write.
#[derive(Drop)]
struct NotingWriter {
    fails: bool,
    reads: Rc<Cell<u64>>,
    reads_before: Rc<Cell<Option<u64>>>,
}

impl Write for NotingWriter {
    fn write(&mut self, buf: &[u8]) -> io::Result<usize> {
        if self.reads_before.get().is_none() {
            self.reads_before.set(Some(self.reads.get()));
        }
        if self.fails {
            return Err(io::Error::from(ErrorKind::BrokenPipe));
        }
        Ok(buf.len())
    }

    fn flush(&mut self) -> io::Result<()> {
        Ok(())
    }
}

// The status of a run, how many reads it made before its first write, and how many in all.
fn reads_of_run(
    alloc: Global,
    bytes: Vec<u8>,
    width: usize,
    fails: bool,
) -> Result<(Status, Option<u64>, u64), AllocError> {
    let reads = Rc::new(alloc, Cell::new(0u64))?;
    let reads_before = Rc::new(alloc, Cell::new(None::<u64>))?;
    let mut source = StdSource::new(CountedReader {
        bytes,
        at: 0,
        width,
        reads: Rc::clone(&reads)?,
    });
    let writer = NotingWriter {
        fails,
        reads: Rc::clone(&reads)?,
        reads_before: Rc::clone(&reads_before)?,
    };
    let mut sink = StdSink::open(alloc, 0, writer)?;
    let status = run_from(alloc, &["run", "10"], &mut source, &mut sink)?;
    Ok((status, reads_before.get(), reads.get()))
}

// A text, how many bytes a read gives, the status, and the reads that it takes to see the end.
static TEXTS: [(&str, usize, Status, u64); 3] = [
    ("thread a fifo 5 at 0\nrun 3\nend\n", 1, Status::Done, 32),
    ("thread a fifo 5 at 0\nrun 3\nend\n", 100, Status::Done, 2),
    ("end\n", 3, Status::Refused, 3),
];

#[test]
fn no_write_comes_before_the_last_read(rt: HostRuntime) -> Result<(), Fail> {
    let alloc = rt.alloc();
    for &(text, width, status, reads) in &TEXTS {
        let bytes = Vec::from_slice(alloc, text.as_bytes())?;
        let found = reads_of_run(alloc, bytes.clone()?, width, false)?;
        assert_eq!(rt; found, (status, Some(reads), reads));
        let found = reads_of_run(alloc, bytes, width, true)?;
        assert_eq!(rt; found, (Status::WriteFault, Some(reads), reads));
    }
    Ok(())
}

#[test]
fn a_text_that_is_too_long_is_written_of_after_its_last_read(rt: HostRuntime) -> Result<(), Fail> {
    let alloc = rt.alloc();
    for (fails, status) in [(false, Status::TooLong), (true, Status::WriteFault)] {
        let bytes = vec![in alloc; b'\n'; 1_048_600]?;
        let found = reads_of_run(alloc, bytes, 4096, fails)?;
        assert_eq!(rt; found, (status, Some(257), 257));
    }
    Ok(())
}
