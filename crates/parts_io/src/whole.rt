//! A source read to its end.
ghost use Rattle.std.specs.Prelude.{◌≡◌, ◌+◌, ◌^◌, ◌<◌, ◌≤◌, ◌++◌, ℕ, List, length, IfOk, OnOk};
ghost use Rattle.std.specs.Io.KnownBytes.{Consumes, IsAtEnd};
ghost use Rattle.parts_io.specs.Causes.{GrewBy, Rose};
ghost use Rattle.parts_io.specs.Whole.{TookAtMost};

use crate::{Failed, Source};
use std::alloc::{AllocError, Global};
use std::error::Error;
use std::fmt;

/// Why a source was not read whole.
#[derive(Clone, Copy, Debug, PartialEq, Eq)]
pub enum ReadEnd {
    /// A read failed.
    ReadFault,
    /// More bytes came than the limit allows.
    TooLong,
    /// There was no memory for the bytes.
    OutOfMemory,
}

impl fmt::Display for ReadEnd {
    ghost use Rattle.std.specs.Prelude.{Some};
    ghost use Rattle.parts_io.specs.Whole.{text_of};

    ghost output = { λ e. Some (text_of e) };

    fn fmt<W: fmt::Write>(&self, f: &mut fmt::Formatter<W>) -> fmt::Result {
        f.write_str(match self {
            ReadEnd::ReadFault => "a read failed",
            ReadEnd::TooLong => "too many bytes",
            ReadEnd::OutOfMemory => "out of memory",
        })
    }
}

impl Error for ReadEnd {}

// How many bytes are asked for at a time.
const PIECE: usize = 4096;

// Reads at most `room` bytes once, and puts them behind the others.
fn read_piece<S: Source>(source: &mut S, bytes: &mut Vec<u8>, room: usize) -> Result<usize, ReadEnd>
    requires { 0 < room }
    ensures bound { IfOk result (λ n. n ≤ room) }
    ensures grew { IfOk result (λ n. (piece : List ℕ) × (length piece ≡ n)
        × (bytes.new.items ≡ bytes.old.items ++ piece)
        × Consumes (S.rest source.old) (S.rest source.new) piece) }
    ensures end { IfOk result (λ n. n ≡ 0 → IsAtEnd (S.rest source.new)) }
    ensures count { IfOk result (λ n. GrewBy n (S.taken source.old) (S.taken source.new)) }
    ensures fault { result ≡ Err ReadEnd.ReadFault → Rose (S.faults source.old) (S.faults source.new) }
    ensures no_fault { (result ≡ Err ReadEnd.ReadFault → ⊥) → S.faults source.new ≡ S.faults source.old }
    ensures later { S.faults source.old ≤ S.faults source.new }
    ensures none { result ≡ Err ReadEnd.ReadFault
        → TookAtMost 0 (S.rest source.old) (S.rest source.new) (S.taken source.old) (S.taken source.new) }
    ensures lost { result ≡ Err ReadEnd.OutOfMemory
        → TookAtMost room (S.rest source.old) (S.rest source.new) (S.taken source.old) (S.taken source.new) }
    ensures not_long { result ≡ Err ReadEnd.TooLong → ⊥ }
{
    let mut piece = [0u8; PIECE];
    let size = room.min(PIECE);
    let Ok(count) = source.read(&mut piece[..size]) else {
        return Err(ReadEnd::ReadFault);
    };
    if bytes.extend_from_slice(&piece[..count]).is_err() {
        return Err(ReadEnd::OutOfMemory);
    }
    Ok(count)
}

/// All bytes of the source, which is read to its end, or to one byte more than `limit`.
///
/// Each turn of the loop but the last takes at least one byte, so there are at most `limit + 2` reads. `ReadFault` comes
/// only where the source's faults rose, `TooLong` exactly where more than `limit` bytes came before a fault, and then
/// `limit + 1` bytes were taken. `OutOfMemory` may come at any time; then at most `limit + 1` bytes were taken.
pub fn read_whole<S: Source>(alloc: Global, source: &mut S, limit: u64) -> Result<Vec<u8>, ReadEnd>
    requires { limit < 2 ^ 40 }

    // the bytes to the end
    ensures whole { IfOk result (λ bytes. Consumes (S.rest source.old) (S.rest source.new) bytes.items) }
    ensures end { OnOk result (IsAtEnd (S.rest source.new)) }
    ensures short { IfOk result (λ bytes. length bytes.items ≤ limit) }
    ensures count { IfOk result (λ bytes. GrewBy (length bytes.items) (S.taken source.old) (S.taken source.new)) }

    // more than `limit` bytes came before a fault
    ensures long { result ≡ Err ReadEnd.TooLong → GrewBy (limit + 1) (S.taken source.old) (S.taken source.new) }
    ensures long_bytes { result ≡ Err ReadEnd.TooLong → (bytes : List ℕ) × (length bytes ≡ limit + 1)
        × Consumes (S.rest source.old) (S.rest source.new) bytes }

    // a fault came before more than `limit` bytes
    ensures fault { result ≡ Err ReadEnd.ReadFault → Rose (S.faults source.old) (S.faults source.new) }
    ensures fault_bytes { result ≡ Err ReadEnd.ReadFault
        → TookAtMost limit (S.rest source.old) (S.rest source.new) (S.taken source.old) (S.taken source.new) }
    ensures no_fault { (result ≡ Err ReadEnd.ReadFault → ⊥) → S.faults source.new ≡ S.faults source.old }
    ensures later { S.faults source.old ≤ S.faults source.new }

    ensures memory_bytes { result ≡ Err ReadEnd.OutOfMemory
        → TookAtMost (limit + 1) (S.rest source.old) (S.rest source.new) (S.taken source.old) (S.taken source.new) }
{
    let mut bytes = Vec::new(alloc);
    while bytes.len() as u64 <= limit {
        let room = limit as usize + 1 - bytes.len();
        if read_piece(source, &mut bytes, room)? == 0 {
            return Ok(bytes);
        }
    }
    Err(ReadEnd::TooLong)
}
