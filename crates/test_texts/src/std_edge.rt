//! The adapters over readers and writers that fail in mid-stream.
ghost use Rattle.std.specs.Prelude.{◌≤◌, codes, length};

use parts_bytes::place_word;
use parts_io::{Line, ReadEnd, Sink, StdSink, StdSource, read_whole};
use std::alloc::{AllocError, Global};
use std::io;
use std::io::{ErrorKind, Read, Write};
use std::test::Fail;

// Gives one byte a read, and fails at one of its reads.
#[derive(Drop)]
struct Dripping {
    left: u8,
    calls: u64,
    fails_at: u64,
}

impl Read for Dripping {
    fn read(&mut self, buf: &mut [u8]) -> io::Result<usize> {
        self.calls = self.calls.saturating_add(1);
        if self.calls == self.fails_at {
            return Err(io::Error::from(ErrorKind::ConnectionReset));
        }
        if buf.is_empty() || self.left == 0 {
            return Ok(0);
        }
        buf[0] = self.left;
        self.left -= 1;
        Ok(1)
    }
}

// Takes these bytes and no others, at most two a write. Once it took as many as it has room for, so many writes take
// none. It flushes where it has taken all of them.
#[derive(Drop)]
struct Narrow {
    due: &'static [u8],
    room: usize,
    refusals: u8,
    fails: bool,
}

impl Narrow {
    // How many bytes of a write it takes.
    fn count_of(&self, buf: &[u8]) -> usize
        ensures { result ≤ length buf.now }
    {
        let most = if self.refusals > 0 {
            self.room.min(2)
        } else {
            2
        };
        let count = buf.len().min(most).min(self.due.len());
        if self.due[..count] == buf[..count] {
            count
        } else {
            0
        }
    }
}

impl Write for Narrow {
    fn write(&mut self, buf: &[u8]) -> io::Result<usize> {
        let count = self.count_of(buf);
        if count == 0 {
            self.refusals = self.refusals.saturating_sub(1);
            if self.fails {
                return Err(io::Error::from(ErrorKind::BrokenPipe));
            }
            return Ok(0);
        }
        self.due = self.due.get(count..).unwrap_or(b"");
        self.room = self.room.saturating_sub(count);
        Ok(count)
    }

    fn flush(&mut self) -> io::Result<()> {
        if self.fails || !self.due.is_empty() {
            return Err(io::Error::from(ErrorKind::BrokenPipe));
        }
        Ok(())
    }
}

#[test]
fn a_reader_fails_in_mid_stream(rt: HostRuntime) -> Result<(), Fail> {
    let alloc = rt.alloc();
    let mut source = StdSource::new(Dripping {
        left: 5,
        calls: 0,
        fails_at: 3,
    });
    assert_eq!(rt;
        read_whole(alloc, &mut source, 100).err(),
        Some(ReadEnd::ReadFault)
    );
    let rest = read_whole(alloc, &mut source, 100)?;
    assert_eq!(rt; rest.as_slice(), [3u8, 2, 1].as_slice());
    Ok(())
}

// Whether each of three writes and a flush is done by a writer that has room for five bytes. Of the second write two of three bytes fit.
fn done_by(alloc: Global, fails: bool) -> Result<[bool; 4], AllocError> {
    let narrow = Narrow {
        due: b"abcde",
        room: 5,
        refusals: 9,
        fails,
    };
    let mut sink = StdSink::open(alloc, 0, narrow)?;
    Ok([
        sink.write(b"abc").is_ok(),
        sink.write(b"def").is_ok(),
        sink.write(b"").is_ok(),
        sink.flush().is_ok(),
    ])
}

#[test]
fn a_writer_fails_in_mid_stream(rt: HostRuntime) -> Result<(), Fail> {
    for fails in [false, true] {
        assert_eq!(rt; done_by(rt.alloc(), fails)?, [true, false, true, !fails]);
    }
    Ok(())
}

// Of the second write three bytes are sent, and three held, of which one is held after the flush; what is written last comes behind it.
#[test]
fn what_a_writer_does_not_take_stays_held(rt: HostRuntime) -> Result<(), Fail> {
    let narrow = Narrow {
        due: b"abcdeflmnop",
        room: 5,
        refusals: 2,
        fails: false,
    };
    let mut sink = StdSink::open(rt.alloc(), 4, narrow)?;
    let first = [
        sink.write(b"abc").is_ok(),
        sink.write(b"def").is_ok(),
        sink.flush().is_ok(),
    ];
    let last = [
        sink.write(b"ghijk").is_ok(),
        sink.write(b"lmnop").is_ok(),
        sink.flush().is_ok(),
    ];
    assert_eq!(rt; [first, last], [[true, true, false], [false, true, true]]);
    Ok(())
}

// The line "xx".
#[derive(Drop)]
struct TwoLetters {}

impl Line for TwoLetters {
    ghost bytes = { λ _. codes "xx\n" };

    fn place(self, buf: &mut [u8], at: usize) -> usize {
        place_word(buf, at, b"xx\n")
    }
}

// At the second line 255 bytes are left. The first line is sent, and then the second held.
#[test]
fn a_line_is_taken_where_there_is_room_for_any(rt: HostRuntime) -> Result<(), Fail> {
    let narrow = Narrow {
        due: b"xx\nxx\n",
        room: 9,
        refusals: 0,
        fails: false,
    };
    let mut sink = StdSink::open(rt.alloc(), 258, narrow)?;
    let done = [
        sink.take_line(TwoLetters {}),
        sink.take_line(TwoLetters {}),
        sink.write_line(TwoLetters {}).is_ok(),
        sink.flush().is_ok(),
    ];
    assert_eq!(rt; done, [true, false, true, true]);
    Ok(())
}

#[test]
fn a_line_is_written_where_no_line_has_room(rt: HostRuntime) -> Result<(), Fail> {
    let narrow = Narrow {
        due: b"xx\n",
        room: 3,
        refusals: 0,
        fails: false,
    };
    let mut sink = StdSink::open(rt.alloc(), 0, narrow)?;
    let done = [
        sink.take_line(TwoLetters {}),
        sink.write_line(TwoLetters {}).is_ok(),
        sink.write_line(TwoLetters {}).is_ok(),
    ];
    assert_eq!(rt; done, [false, true, false]);
    Ok(())
}
