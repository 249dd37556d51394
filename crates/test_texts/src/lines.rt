//! The lines of a text, and their words.
use script_lex::{Lines, Words};

// Whether the next word has these bytes, and stands there.
fn is_next(words: &mut Words<'_>, bytes: &[u8], at: u32) -> bool {
    match words.next_word() {
        Some(word) => word.bytes == bytes && word.at == at,
        None => false,
    }
}

#[test]
fn a_line_has_a_number_and_bytes(rt: HostRuntime) {
    let mut lines = Lines::new(b"run 01# set\n\n\t at\t0");
    let first = lines.next_line().expect(&rt, "a first line");
    assert!(rt; first.number == 1 && !first.has_bad_byte());
    assert_eq!(rt; first.bytes, b"run 01# set".as_slice());
    assert_eq!(rt; lines.next_number(), 2);
}

#[test]
fn words_are_read_and_read_again(rt: HostRuntime) {
    let mut lines = Lines::new(b"run 01# set\n");
    let first = lines.next_line().expect(&rt, "a line");
    let mut words = first.words();
    assert!(rt; is_next(&mut words, b"run", 0));
    let mut same = words.again();
    assert!(rt; is_next(&mut words, b"01", 4));
    assert!(rt; words.next_word().is_none());
    assert!(rt; is_next(&mut same, b"01", 4));
}

#[test]
fn an_empty_line_and_one_without_an_end(rt: HostRuntime) {
    let mut lines = Lines::new(b"\n\t at\t0");
    let empty = lines.next_line().expect(&rt, "an empty line");
    assert!(rt; empty.words().next_word().is_none());
    let last = lines.next_line().expect(&rt, "a last line without an end");
    let mut words = last.words();
    assert!(rt; is_next(&mut words, b"at", 2));
    assert!(rt; is_next(&mut words, b"0", 5));
    assert!(rt; lines.next_line().is_none());
}

#[test]
fn words_of_bytes_alone(rt: HostRuntime) {
    let mut words = Words::in_bytes(b" run 5".as_slice());
    assert_eq!(rt; words.bytes(), b" run 5".as_slice());
    assert!(rt; is_next(&mut words, b"run", 1));
}

// A text of a line, and whether it has a byte that none may have.
static TEXTS: [(&[u8], bool); 6] = [
    (b"\x08", true),
    (b"\t", false),
    (b"\r", true),
    (b" ~", false),
    (b"# \x7f", true),
    (b"\x80", true),
];

fn is_bad(text: &[u8]) -> Option<bool> {
    if text.len() > 1000 {
        return None;
    }
    Some(Lines::new(text).next_line()?.has_bad_byte())
}

#[test]
fn bytes_that_no_line_may_have(rt: HostRuntime) {
    for &(text, bad) in &TEXTS {
        assert_eq!(rt; is_bad(text), Some(bad));
    }
}
