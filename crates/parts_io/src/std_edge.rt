//! The trusted edge: the readers and writers of std, with their faults counted.
ghost use Rattle.std.specs.Prelude.{◌≡◌, ◌≤◌, [], length, take, IfOk, IsErr, OnOk};
ghost use Rattle.std.specs.Io.KnownBytes.{Appends, Keeps};
ghost use Rattle.parts_io.specs.Bytes.{WritesAll};
ghost use Rattle.parts_io.specs.Causes.{HasCause};
ghost use Rattle.parts_io.specs.Held.{with_held};

use crate::held::Held;
use crate::{Failed, LINE_ROOM, Line, Sink, Source};
use std::alloc::{AllocError, Global};
use std::io::{Read, Write};

/// A reader of std as a source.
///
/// It tells of its bytes what the reader tells: nothing where they come from a file, a pipe or a terminal.
#[derive(Drop)]
pub struct StdSource<R> {
    inner: R,
    taken: u64,
    faults: u64,
}

impl<R: Read> StdSource<R> {
    /// A source over `inner` that has given nothing yet.
    pub fn new(inner: R) -> StdSource<R>
        ensures rest { ⟦<StdSource<R> as Source>⟧.rest result ≡ R.remaining inner }
        ensures taken { ⟦<StdSource<R> as Source>⟧.taken result ≡ 0 }
        ensures faults { ⟦<StdSource<R> as Source>⟧.faults result ≡ 0 }
    {
        StdSource {
            inner,
            taken: 0,
            faults: 0,
        }
    }
}

impl<R: Read> Source for StdSource<R> {
    ghost rest = { λ s. R.remaining s.inner };

    ghost taken = { λ s. s.taken };

    ghost faults = { λ s. s.faults };

    /// Reads once. Each `Err` of std, an interrupted read included, is a fault.
    fn read(&mut self, buf: &mut [u8]) -> Result<usize, Failed> {
        match self.inner.read(buf) {
            Ok(count) => {
                self.taken = self.taken.saturating_add(count as u64);
                Ok(count)
            }
            Err(_) => {
                self.faults = self.faults.saturating_add(1);
                Err(Failed)
            }
        }
    }
}

/// A writer of std as a sink, with a buffer before it: the writer is asked where the buffer is full, and at a flush.
///
/// It tells of its text what the writer tells, with the bytes that are held back behind it: nothing where the writer
/// goes to a file, a pipe or a terminal. Whoever lets it go flushes it first, or the bytes that it holds are lost.
#[derive(Drop)]
pub struct StdSink<W> {
    inner: W,
    held: Held,
    faults: u64,
}

impl<W: Write + Drop> StdSink<W> {
    /// A sink over `inner` to which nothing was written yet, with a buffer for `room` bytes.
    pub fn open(alloc: Global, room: usize, inner: W) -> Result<StdSink<W>, AllocError>
        ensures text { IfOk result (λ sink. ⟦<StdSink<W> as Sink>⟧.text sink ≡ W.contents inner) }
        ensures faults { IfOk result (λ sink. ⟦<StdSink<W> as Sink>⟧.faults sink ≡ 0) }
    {
        Ok(StdSink {
            inner,
            held: Held::open(alloc, room)?,
            faults: 0,
        })
    }
}

impl<W: Write> StdSink<W> {
    /// Sends on what is held back here, and then what the writer holds back. A flush that fails is a fault.
    pub fn flush(&mut self) -> Result<(), Failed>
        ensures text { Keeps (⟦<StdSink<W> as Sink>⟧.text self.old) (⟦<StdSink<W> as Sink>⟧.text self.new) }
        ensures cause { HasCause
            (⟦<StdSink<W> as Sink>⟧.faults self.old) (⟦<StdSink<W> as Sink>⟧.faults self.new) result }
    {
        self.send()?;
        match self.inner.flush() {
            Ok(()) => Ok(()),
            Err(_) => self.fail(),
        }
    }

    // Sends on what is held. What the writer does not take stays held.
    fn send(&mut self) -> Result<(), Failed>
        ensures empty { OnOk result (self.new.held ≡ []) }
        ensures text { Keeps (with_held (W.contents self.old.inner) self.old.held)
            (with_held (W.contents self.new.inner) self.new.held) }
        ensures cause { HasCause self.old.faults self.new.faults result }
    {
        let all = self.held.bytes().len();
        let sent = send_on(&mut self.inner, self.held.bytes());
        self.held.let_go(sent);
        if sent < all {
            return self.fail();
        }
        Ok(())
    }

    // Writes bytes for which there is no room: behind the held ones, that are sent on first.
    #[inline(never)]
    fn write_behind(&mut self, bytes: &[u8]) -> Result<(), Failed>
        ensures written { WritesAll (with_held (W.contents self.old.inner) self.old.held)
            (with_held (W.contents self.new.inner) self.new.held) result bytes.now }
        ensures cause { HasCause self.old.faults self.new.faults result }
    {
        self.send()?;
        if self.held.put(bytes) {
            return Ok(());
        }
        if send_on(&mut self.inner, bytes) < bytes.len() {
            return self.fail();
        }
        Ok(())
    }

    // Writes a line for which there is no room.
    #[inline(never)]
    fn write_line_behind<L: Line>(&mut self, line: L) -> Result<(), Failed>
        ensures written { WritesAll (with_held (W.contents self.old.inner) self.old.held)
            (with_held (W.contents self.new.inner) self.new.held) result (L.bytes line) }
        ensures cause { HasCause self.old.faults self.new.faults result }
        ensures short { length (L.bytes line) ≤ 256 }
    {
        let mut buf = [0; LINE_ROOM];
        let len = line.place(&mut buf, 0);
        self.write_behind(&buf[..len])
    }

    // Counts a fault and answers it.
    fn fail(&mut self) -> Result<(), Failed>
        ensures failed { IsErr result }
        ensures text { self.new.inner ≡ self.old.inner }
        ensures held { self.new.held ≡ self.old.held }
        ensures cause { HasCause self.old.faults self.new.faults result }
    {
        self.faults = self.faults.saturating_add(1);
        Err(Failed)
    }
}

// Writes until all of `bytes` are taken, and answers how many are. An `Err` of std, or a write that takes nothing, ends it.
fn send_on<W: Write>(inner: &mut W, bytes: &[u8]) -> usize
    ensures bound { result ≤ length bytes.now }
    ensures sent { Appends (W.contents inner.old) (W.contents inner.new) (take result bytes.now) }
{
    let mut done = 0;
    while done < bytes.len() {
        match inner.write(&bytes[done..]) {
            Ok(count) if count > 0 => done += count,
            _ => return done,
        }
    }
    done
}

impl<W: Write> Sink for StdSink<W> {
    ghost text = { λ s. with_held (W.contents s.inner) s.held };

    ghost faults = { λ s. s.faults };

    /// Holds all of `bytes` back where there is room for them, and else sends on what is held and then them. Where std
    /// answers an `Err` or takes nothing, that is a fault.
    #[inline(always)]
    fn write(&mut self, bytes: &[u8]) -> Result<(), Failed> {
        if self.held.put(bytes) {
            return Ok(());
        }
        self.write_behind(bytes)
    }

    /// Holds the line back, as it is made, where there is room for any.
    #[inline(always)]
    fn write_line<L: Line>(&mut self, line: L) -> Result<(), Failed> {
        match self.held.put_line(line) {
            Ok(()) => Ok(()),
            Err(line) => self.write_line_behind(line),
        }
    }

    /// Holds the line back, where there is room for any.
    #[inline(always)]
    fn take_line<L: Line + Drop>(&mut self, line: L) -> bool {
        match self.held.put_line(line) {
            Ok(()) => true,
            Err(_) => false,
        }
    }
}
