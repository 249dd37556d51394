//! Runs of bytes up to one that ends them, 16 bytes at a time.
ghost use Rattle.std.specs.Prelude.{◌≡◌, ◌≤◌, not, map, length, take};
ghost use Rattle.std.specs.List.{prefix_len};
ghost use Rattle.std.specs.Simd.Lanes.{mask_l};
ghost use Rattle.script_lex.specs.Stops.{stops, AreMarks};

use std::simd::prelude::*;

// What ends a run.
#[derive(Clone, Copy)]
pub(crate) enum Stop {
    LineEnd,
    Comment,
    Blank,
    // A byte that no line may have.
    Bad,
}

#[inline(always)]
fn stops(stop: Stop, byte: u8) -> bool
    ensures { result ≡ stops stop byte }
{
    match stop {
        Stop::LineEnd => byte == b'\n',
        Stop::Comment => byte == b'#',
        Stop::Blank => byte == b'\t' || byte == b' ',
        Stop::Bad => !(byte == b'\t' || (b' ' <= byte && byte <= b'~')),
    }
}

#[inline(always)]
fn line_ends(v: u8x16) -> u64
    ensures { result ≡ mask_l (map (stops Stop.LineEnd) v) }
{
    v.simd_eq(u8x16::splat(b'\n')).to_bitmask()
}

#[inline(always)]
fn comments(v: u8x16) -> u64
    ensures { result ≡ mask_l (map (stops Stop.Comment) v) }
{
    v.simd_eq(u8x16::splat(b'#')).to_bitmask()
}

#[inline(always)]
fn blanks(v: u8x16) -> u64
    ensures { result ≡ mask_l (map (stops Stop.Blank) v) }
{
    (v.simd_eq(u8x16::splat(b'\t')) | v.simd_eq(u8x16::splat(b' '))).to_bitmask()
}

#[inline(always)]
fn bad_bytes(v: u8x16) -> u64
    ensures { result ≡ mask_l (map (stops Stop.Bad) v) }
{
    (v.simd_ne(u8x16::splat(b'\t'))
        & (v.simd_lt(u8x16::splat(b' ')) | v.simd_gt(u8x16::splat(b'~')))).to_bitmask()
}

// Bit k tells of byte k.
#[inline(always)]
fn stops_of_16(stop: Stop, v: u8x16) -> u64
    ensures { result ≡ mask_l (map (stops stop) v) }
{
    match stop {
        Stop::LineEnd => line_ends(v),
        Stop::Comment => comments(v),
        Stop::Blank => blanks(v),
        Stop::Bad => bad_bytes(v),
    }
}

// The same byte by byte, from `from` on.
#[inline(always)]
fn last_run(stop: Stop, ahead: &[u8], from: usize, len: usize) -> usize
    requires room { len ≤ length ahead.now }
    requires from { from ≤ prefix_len (λ c. not (stops stop c)) (take len ahead.now) }
    ensures { result ≡ prefix_len (λ c. not (stops stop c)) (take len ahead.now) }
{
    let mut at = from;
    while at < len && !stops(stop, ahead[at]) {
        at += 1;
    }
    at
}

/// How many of the first `len` bytes stand before one that ends them. More bytes may be ahead than those, and are looked at.
#[inline(always)]
pub(crate) fn run_len(stop: Stop, ahead: &[u8], len: usize) -> usize
    requires { len ≤ length ahead.now }
    ensures run { result ≡ prefix_len (λ c. not (stops stop c)) (take len ahead.now) }
    ensures bound { result ≤ len }
{
    let mut at = 0;
    while at < len && 16 <= ahead.len() - at {
        let found = stops_of_16(stop, u8x16::from_slice(&ahead[at..]));
        if found != 0 {
            return (at + found.trailing_zeros() as usize).min(len);
        }
        at += 16;
    }
    if len <= at {
        return len;
    }
    last_run(stop, ahead, at, len)
}

// How many of these bytes stand before one that ends the run.
#[inline(always)]
fn run_of_16(stop: Stop, v: u8x16) -> usize
    ensures { result ≡ prefix_len (λ c. not (stops stop c)) v }
{
    let found = stops_of_16(stop, v);
    if found == 0 {
        16
    } else {
        found.trailing_zeros() as usize
    }
}

/// Where a line ends, where its comment begins, and whether it has a bad byte.
#[derive(Clone, Copy)]
pub(crate) struct Marks {
    pub len: usize,
    pub comment_at: usize,
    pub is_bad: bool,
}

// The marks of a line of any length.
#[inline(always)]
fn marks_of_long(text: &[u8]) -> Marks
    ensures marks { AreMarks text.now result.len result.comment_at result.is_bad }
    ensures bound { (result.comment_at ≤ result.len) × (result.len ≤ length text.now) }
{
    let len = run_len(Stop::LineEnd, text, text.len());
    Marks {
        len,
        comment_at: run_len(Stop::Comment, text, len),
        is_bad: run_len(Stop::Bad, text, len) < len,
    }
}

/// The marks of the first line of a text. Most lines are shorter than 16 bytes, which are looked at together.
#[inline(always)]
pub(crate) fn line_marks(text: &[u8]) -> Marks
    ensures marks { AreMarks text.now result.len result.comment_at result.is_bad }
    ensures bound { (result.comment_at ≤ result.len) × (result.len ≤ length text.now) }
{
    if 16 <= text.len() {
        let v = u8x16::from_slice(text);
        let len = run_of_16(Stop::LineEnd, v);
        if len < 16 {
            return Marks {
                len,
                comment_at: run_of_16(Stop::Comment, v).min(len),
                is_bad: run_of_16(Stop::Bad, v) < len,
            };
        }
    }
    marks_of_long(text)
}
