//! The words of results and of signal codes.
ghost use Rattle.std.specs.Prelude.{◌≡◌, ◌≤◌, ◌+◌, length, take};
ghost use Rattle.parts_bytes.specs.Placed.{Placed};
ghost use Rattle.words_numbers.specs.Words.{res_text, sig_code_text};

use parts_bytes::place_within;
use words_numbers::{Res, SigCode};

// The word of each result, with blanks behind it, and how long it is.
static RESULTS: [([u8; 16], usize); 11] = [
    (*b"0               ", 1),
    (*b"EAGAIN          ", 6),
    (*b"EBUSY           ", 5),
    (*b"EDEADLK         ", 7),
    (*b"EINTR           ", 5),
    (*b"EINVAL          ", 6),
    (*b"EMSGSIZE        ", 8),
    (*b"EOVERFLOW       ", 9),
    (*b"EPERM           ", 5),
    (*b"ESRCH           ", 5),
    (*b"ETIMEDOUT       ", 9),
];

// The word of each signal code, in the same form.
static CODES: [([u8; 16], usize); 4] = [
    (*b"USER            ", 4),
    (*b"QUEUE           ", 5),
    (*b"TIMER           ", 5),
    (*b"MESGQ           ", 5),
];

// A text that begins with the word of a result, and how long the word is.
#[inline(always)]
fn result_entry(res: Res) -> (&'static [u8], usize)
    ensures word { take result.1 result.0.now ≡ res_text res }
    ensures text { length result.0.now ≡ 16 }
    ensures short { result.1 ≤ 16 }
{
    let (text, len) = &RESULTS[res as usize];
    (text.as_slice(), *len)
}

// A text that begins with the word of a signal code, and how long the word is.
#[inline(always)]
fn code_entry(code: SigCode) -> (&'static [u8], usize)
    ensures word { take result.1 result.0.now ≡ sig_code_text code }
    ensures text { length result.0.now ≡ 16 }
    ensures short { result.1 ≤ 16 }
{
    let (text, len) = &CODES[code as usize];
    (text.as_slice(), *len)
}

/// Puts the word of a result at a place with room for any, and answers the place behind it.
#[inline(always)]
pub(crate) fn place_result_text(buf: &mut [u8], at: usize, res: Res) -> usize
    requires { at + 16 ≤ length buf.old }
    ensures placed { Placed buf.old buf.new at (res_text res) result }
    ensures within { result ≤ at + 16 }
{
    let (text, len) = result_entry(res);
    place_within::<16>(buf, at, text, len)
}

/// Puts the word of a signal code at a place with room for any, and answers the place behind it.
#[inline(always)]
pub(crate) fn place_code_text(buf: &mut [u8], at: usize, code: SigCode) -> usize
    requires { at + 16 ≤ length buf.old }
    ensures placed { Placed buf.old buf.new at (sig_code_text code) result }
    ensures within { result ≤ at + 16 }
{
    let (text, len) = code_entry(code);
    place_within::<16>(buf, at, text, len)
}
