//! Digits of numbers put at a place of a buffer. Each function answers the place behind them.
ghost use Rattle.std.specs.Prelude.{◌≡◌, ◌+◌, ◌<◌, ◌≤◌, [], ◌∷◌, ◌/◌, ◌%◌, length, decimal};
ghost use Rattle.parts_bytes.specs.Placed.{Placed};

use crate::place::{place_byte, place_front, place_word};
use itoa::Buffer;

// The two digits of each number below 100.
static PAIRS: [[u8; 2]; 100] = [
    *b"00", *b"01", *b"02", *b"03", *b"04", *b"05", *b"06", *b"07", *b"08", *b"09", *b"10", *b"11",
    *b"12", *b"13", *b"14", *b"15", *b"16", *b"17", *b"18", *b"19", *b"20", *b"21", *b"22", *b"23",
    *b"24", *b"25", *b"26", *b"27", *b"28", *b"29", *b"30", *b"31", *b"32", *b"33", *b"34", *b"35",
    *b"36", *b"37", *b"38", *b"39", *b"40", *b"41", *b"42", *b"43", *b"44", *b"45", *b"46", *b"47",
    *b"48", *b"49", *b"50", *b"51", *b"52", *b"53", *b"54", *b"55", *b"56", *b"57", *b"58", *b"59",
    *b"60", *b"61", *b"62", *b"63", *b"64", *b"65", *b"66", *b"67", *b"68", *b"69", *b"70", *b"71",
    *b"72", *b"73", *b"74", *b"75", *b"76", *b"77", *b"78", *b"79", *b"80", *b"81", *b"82", *b"83",
    *b"84", *b"85", *b"86", *b"87", *b"88", *b"89", *b"90", *b"91", *b"92", *b"93", *b"94", *b"95",
    *b"96", *b"97", *b"98", *b"99",
];

/// A number, without a call where it has one or two digits.
#[inline(always)]
pub fn place_numeral(buf: &mut [u8], at: usize, n: u64) -> usize
    requires { at + 20 ≤ length buf.old }
    ensures placed { Placed buf.old buf.new at (decimal n) result }
    ensures within { result ≤ at + 20 }
{
    if n < 100 {
        place_two(buf, at, n)
    } else {
        place_digits(buf, at, n)
    }
}

// A number of one or two digits.
#[inline(always)]
fn place_two(buf: &mut [u8], at: usize, n: u64) -> usize
    requires room { at + 2 ≤ length buf.old }
    requires two { n < 100 }
    ensures placed { Placed buf.old buf.new at (decimal n) result }
    ensures within { result ≤ at + 2 }
{
    if n < 10 {
        place_byte(buf, at, b'0' + n as u8)
    } else {
        place_pair(buf, at, n)
    }
}

// A number of at most four digits.
#[inline(always)]
fn place_four(buf: &mut [u8], at: usize, n: u64) -> usize
    requires room { at + 4 ≤ length buf.old }
    requires four { n < 10_000 }
    ensures placed { Placed buf.old buf.new at (decimal n) result }
    ensures within { result ≤ at + 4 }
{
    if n < 100 {
        return place_two(buf, at, n);
    }
    let at = place_two(buf, at, n / 100);
    place_pair(buf, at, n % 100)
}

/// A number of at most eight digits: two by two, each stored where it stays. What is stored in pieces and copied as a whole makes the copy
/// wait.
#[inline(always)]
pub fn place_eight(buf: &mut [u8], at: usize, n: u64) -> usize
    requires room { at + 8 ≤ length buf.old }
    requires eight { n < 100_000_000 }
    ensures placed { Placed buf.old buf.new at (decimal n) result }
    ensures within { result ≤ at + 8 }
{
    if n < 10_000 {
        return place_four(buf, at, n);
    }
    let at = place_four(buf, at, n / 10_000);
    let at = place_pair(buf, at, n / 100 % 100);
    place_pair(buf, at, n % 100)
}

/// Two digits of a number below 100, of which the first may be 0.
#[inline(always)]
pub fn place_pair(buf: &mut [u8], at: usize, n: u64) -> usize
    requires room { at + 2 ≤ length buf.old }
    requires two { n < 100 }
    ensures { Placed buf.old buf.new at ((48 + n / 10) ∷ (48 + n % 10) ∷ []) result }
{
    place_front::<2>(buf, at, pair(n))
}

// Two digits of a number below 100.
#[inline(always)]
fn pair(n: u64) -> &'static [u8; 2]
    requires { n < 100 }
    ensures { result.now ≡ (48 + n / 10) ∷ (48 + n % 10) ∷ [] }
{
    &PAIRS[n as usize]
}

/// The digits of a number.
#[inline(never)]
pub fn place_digits(buf: &mut [u8], at: usize, n: u64) -> usize
    requires { at + 20 ≤ length buf.old }
    ensures placed { Placed buf.old buf.new at (decimal n) result }
    ensures within { result ≤ at + 20 }
{
    if n < 100_000_000 {
        return place_eight(buf, at, n);
    }
    place_word(buf, at, Buffer::new().format(n).as_bytes())
}
