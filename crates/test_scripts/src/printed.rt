//! Lines of words, one in pieces, and a sink that has no room for all.
use parts_io::MemSink;
use script_printer::Printer;
use script_writer::Word::{Keyword, Name, Number, Signal};
use std::test::Fail;

#[test]
fn a_line_in_pieces(rt: HostRuntime) -> Result<(), Fail> {
    let alloc = rt.alloc();
    let mut sink = MemSink::open(alloc, 1000, Vec::new(alloc))?;
    let mut out = Printer::new(&mut sink);
    out.begin(&[Keyword(b"list"), Number(5)]);
    out.words(&[Name(b"a"), Name(b"b")]);
    out.end();
    out.line(&[Keyword(b"killed"), Signal(7)]);
    out.numbered(18, b"list 5\n");
    assert!(rt; !out.failed());
    assert_eq!(rt;
        sink.text(),
        b"list 5 a b\nkilled rt7\n18 list 5\n".as_slice()
    );
    Ok(())
}

#[test]
fn words_without_room_in_a_row(rt: HostRuntime) -> Result<(), Fail> {
    let alloc = rt.alloc();
    let mut sink = MemSink::open(alloc, 1000, Vec::new(alloc))?;
    let mut out = Printer::new(&mut sink);
    let names = [
        Name(b"a"),
        Name(b"b"),
        Name(b"c"),
        Name(b"d"),
        Name(b"e"),
        Name(b"f"),
        Name(b"g"),
        Name(b"h"),
    ];
    out.line(&names);
    out.begin(&names);
    out.words(&names);
    out.end();
    assert!(rt; !out.failed());
    assert_eq!(rt;
        sink.text(),
        b"a b c d e f g h\na b c d e f g h a b c d e f g h\n".as_slice()
    );
    Ok(())
}

#[test]
fn a_fact_without_room_in_a_row(rt: HostRuntime) -> Result<(), Fail> {
    let alloc = rt.alloc();
    let mut sink = MemSink::open(alloc, 1000, Vec::new(alloc))?;
    let mut out = Printer::new(&mut sink);
    out.numbered(7, &[b'd'; 236]);
    assert!(rt; !out.failed());
    assert_eq!(rt; sink.text().len(), 238);
    Ok(())
}

#[test]
fn nothing_behind_a_failure(rt: HostRuntime) -> Result<(), Fail> {
    let alloc = rt.alloc();
    let mut sink = MemSink::open(alloc, 6, Vec::new(alloc))?;
    let mut out = Printer::new(&mut sink);
    out.begin(&[Keyword(b"list"), Number(5)]);
    assert!(rt; !out.failed());
    out.end();
    assert!(rt; out.failed());
    out.line(&[Keyword(b"x")]);
    assert_eq!(rt; sink.text(), b"list 5".as_slice());
    Ok(())
}
