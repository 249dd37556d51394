//! The command `pse52`: `pse52 run N < script` prints the trace of the script's run to tick N.
//!
//! Proved: nothing of its own: it makes one call.
#![tactic(auto)]

ghost use Rattle.std.specs.Prelude.{◌≡◌};

use parts_io::{Sink, Source, StdSink, StdSource};
use parts_steps::Steps;
use std::alloc::Global;
use std::io::{BufReader, ErrorKind};
use std::marker::Brand;
use std::process::ExitCode;
use std::sync::ledger::{Blank, Ledger};
use std::{env, io};
use tool_answers::Status;
use tool_commands::run_tool;

// How many bytes of the output are gathered before they are written.
const HELD_BACK: usize = 65_536;

// Carries out the command with a counter of its own.
fn run_counted<S: Source, K: Sink, L: Ledger>(
    alloc: Global,
    words: &[String],
    source: &mut S,
    sink: &mut K,
    blank: Blank,
) -> Status
    requires name { blank.name ≡ L.name }
    requires parts { blank.parts ≡ L.parts }
    requires one { L.parts ≡ 1 }
{
    let mut steps = Steps::<L>::new(blank);
    run_tool(alloc, words, source, sink, &mut steps)
}

// The words after the program's name. Where one is not UTF-8 they are no command, as no words are.
fn words(rt: &HostRuntime) -> io::Result<Vec<String>> {
    let mut words = Vec::new(rt.alloc());
    match env::args(rt) {
        Ok(all) => {
            for word in all.skip(1) {
                words.push(word)?;
            }
            Ok(words)
        }
        Err(e) if e.kind() == ErrorKind::InvalidData => Ok(words),
        Err(e) => Err(e),
    }
}

// Reads and writes through buffers. What a buffer held back and could not write is a fault of writing.
fn run(rt: &HostRuntime) -> io::Result<Status> {
    let words = words(rt)?;
    let mut source = StdSource::new(BufReader::new(rt.alloc(), rt.reader())?);
    let mut sink = StdSink::open(rt.alloc(), HELD_BACK, io::writer(rt))?;
    let status = run_counted::<_, _, Brand>(
        rt.alloc(),
        words.as_slice(),
        &mut source,
        &mut sink,
        Blank::new(1),
    );
    match sink.flush() {
        Ok(()) => Ok(status),
        Err(_) => Ok(Status::WriteFault),
    }
}

fn main(rt: HostRuntime) -> ExitCode {
    let status = run(&rt).unwrap_or(Status::OutOfMemory);
    ExitCode::from(status.number())
}
