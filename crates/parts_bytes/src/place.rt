//! Bytes put at a place of a buffer. Each function answers the place behind them.
ghost use Rattle.std.specs.Prelude.{◌≡◌, ◌+◌, ◌<◌, ◌≤◌, ◌∷◌, [], length, take};
ghost use Rattle.parts_bytes.specs.Placed.{Placed};

use std::simd::Simd;

/// One byte.
#[inline(always)]
pub fn place_byte(buf: &mut [u8], at: usize, byte: u8) -> usize
    requires { at < length buf.old }
    ensures { Placed buf.old buf.new at (byte ∷ []) result }
{
    buf[at] = byte;
    at + 1
}

/// The first N bytes, by one load and one store.
#[inline(always)]
pub fn place_front<const N: usize>(buf: &mut [u8], at: usize, bytes: &[u8]) -> usize
    requires { (N ≤ length bytes.now) × (at + N ≤ length buf.old) }
    ensures { Placed buf.old buf.new at (take N bytes.now) result }
{
    Simd::<u8, N>::from_slice(bytes).copy_to_slice(&mut buf[at..]);
    at + N
}

/// The first `len` bytes of a text, where N bytes can be read and written at once: by one load and one store.
#[inline(always)]
pub fn place_within<const N: usize>(buf: &mut [u8], at: usize, text: &[u8], len: usize) -> usize
    requires room { (N ≤ length text.now) × (at + N ≤ length buf.old) }
    requires short { len ≤ N }
    ensures { Placed buf.old buf.new at (take len text.now) result }
{
    place_front::<N>(buf, at, text);
    at + len
}

// Bytes by two copies of N that may lie over each other.
#[inline(always)]
fn place_ends<const N: usize>(buf: &mut [u8], at: usize, bytes: &[u8]) -> usize
    requires fits { at + length bytes.now ≤ length buf.old }
    requires covers { (N ≤ length bytes.now) × (length bytes.now ≤ N + N) }
    ensures { Placed buf.old buf.new at bytes.now result }
{
    let last = bytes.len() - N;
    place_front::<N>(buf, at, bytes);
    place_front::<N>(buf, at + last, &bytes[last..])
}

/// At most 32 bytes. A word is too short for a call that copies, and of a literal only its loads and stores are left.
#[inline(always)]
pub fn place_word(buf: &mut [u8], at: usize, word: &[u8]) -> usize
    requires fits { at + length word.now ≤ length buf.old }
    requires short { length word.now ≤ 32 }
    ensures { Placed buf.old buf.new at word.now result }
{
    let len = word.len();
    if len >= 16 {
        place_ends::<16>(buf, at, word)
    } else if len >= 8 {
        place_ends::<8>(buf, at, word)
    } else if len >= 4 {
        place_ends::<4>(buf, at, word)
    } else if len >= 2 {
        place_ends::<2>(buf, at, word)
    } else if len == 1 {
        place_front::<1>(buf, at, word)
    } else {
        at
    }
}

/// Bytes, of which up to 64 are copied without a call.
#[inline(always)]
pub fn place_bytes(buf: &mut [u8], at: usize, bytes: &[u8]) -> usize
    requires { at + length bytes.now ≤ length buf.old }
    ensures { Placed buf.old buf.new at bytes.now result }
{
    if bytes.len() > 64 {
        place_many(buf, at, bytes)
    } else if bytes.len() > 32 {
        place_ends::<32>(buf, at, bytes)
    } else {
        place_word(buf, at, bytes)
    }
}

// Bytes by a call.
fn place_many(buf: &mut [u8], at: usize, bytes: &[u8]) -> usize
    requires { at + length bytes.now ≤ length buf.old }
    ensures { Placed buf.old buf.new at bytes.now result }
{
    let end = at + bytes.len();
    buf[at..end].copy_from_slice(bytes);
    end
}
