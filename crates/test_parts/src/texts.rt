//! Texts in rooms that are just large enough, and then too small.
use parts_io::Sink;
use parts_texts::{NextText, Texts};

#[test]
fn texts_are_told_by_number(rt: HostRuntime) {
    let mut texts = Texts::open(rt.alloc(), 2, 5).expect(&rt, "memory");
    texts.push(b"ab");
    texts.push(b"cde");
    assert_eq!(rt; texts.text(0), b"ab".as_slice());
    assert_eq!(rt; texts.text(1), b"cde".as_slice());
    assert!(rt; !texts.is_full());
    texts.push(b"");
    assert!(rt; texts.is_full());
    texts.clear();
    assert_eq!(rt; texts.count(), 0);
}

#[test]
fn next_text_is_written_in_pieces(rt: HostRuntime) {
    let mut next = NextText::open(rt.alloc(), 4).expect(&rt, "memory");
    let written = [
        next.write(b"ab").is_ok(),
        next.write(b"cd").is_ok(),
        next.write(b"e").is_ok(),
    ];
    assert_eq!(rt; written, [true, true, false]);
    assert_eq!(rt; next.text(), b"abcd".as_slice());
    next.clear();
    assert!(rt; next.text().is_empty());
}
