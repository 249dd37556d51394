//! Where the bytes of a script come from, and where a trace goes.
//!
//! Proved: reads and writes move the bytes they say and count every failure; sources and sinks in memory fail exactly where they
//! are told to; a sink over a writer of std tells what the writer tells, with the bytes that it still holds back; `read_whole`
//! gives all bytes, or the exact cause. A `SureSource` never fails (`sure`), and a `MemSink` with room and no failing numbers
//! takes every write (`roomy`).
//!
//! [`Source`] and [`Sink`] are the outside as the rest of the project sees it. A source and a sink in memory tell every
//! byte, so that whole runs can be stated over them. The adapters over the readers and writers of std tell nothing of
//! content and count their faults; the one over a writer has a buffer of its own, so that a short write is a copy, and a line
//! is made in it.
#![tactic(auto)]

mod held;
mod line;
mod mem_sink;
mod mem_source;
mod null_sink;
mod outside;
mod std_edge;
mod whole;

pub use line::{LINE_ROOM, Line};
pub use mem_sink::MemSink;
pub use mem_source::{MemSource, SureSource};
pub use null_sink::NullSink;
pub use outside::{Failed, Sink, Source};
pub use std_edge::{StdSink, StdSource};
pub use whole::{ReadEnd, read_whole};
