//! Sources and sinks in memory, and one that throws away.
use parts_io::{MemSink, MemSource, NullSink, ReadEnd, Sink, SureSource, read_whole};
use std::alloc::{AllocError, Global};
use std::test::Fail;

#[test]
fn a_write_fails_by_number_and_for_want_of_room(rt: HostRuntime) -> Result<(), Fail> {
    let alloc = rt.alloc();
    let mut sink = MemSink::open(alloc, 5, vec![in alloc; 2u64; 1]?)?;
    let written = [
        sink.write(b"ab").is_ok(),
        sink.write(b"cd").is_ok(),
        sink.write(b"efgh").is_ok(),
        sink.write(b"ijk").is_ok(),
    ];
    assert_eq!(rt; written, [true, false, false, true]);
    assert_eq!(rt; sink.text(), b"abijk".as_slice());
    Ok(())
}

#[test]
fn a_write_is_thrown_away(rt: HostRuntime) {
    let mut sink = NullSink::new();
    assert!(rt; sink.write(b"ab").is_ok() && sink.discards());
}

// Whether so many bytes are read whole with that limit, or else are too long.
fn is_read(alloc: Global, size: usize, limit: u32, is_whole: bool) -> Result<bool, AllocError> {
    let mut source = SureSource::new(vec![in alloc; b'a'; size]?);
    match read_whole(alloc, &mut source, limit as u64) {
        Ok(bytes) => Ok(is_whole && bytes.len() == size),
        Err(end) => Ok(!is_whole && end == ReadEnd::TooLong),
    }
}

#[test]
fn a_source_is_read_to_its_end_or_past_the_limit(rt: HostRuntime) -> Result<(), Fail> {
    for (size, limit, is_whole) in [
        (0, 0, true),
        (1, 0, false),
        (9000, 9000, true),
        (9000, 8999, false),
    ] {
        assert!(rt;
            is_read(rt.alloc(), size, limit, is_whole)?,
            "{size} {limit}"
        );
    }
    Ok(())
}

// How many bytes are read.
fn count_read(alloc: Global, source: &mut MemSource) -> Result<usize, ReadEnd> {
    Ok(read_whole(alloc, source, 9000)?.len())
}

#[test]
fn the_second_read_fails(rt: HostRuntime) -> Result<(), Fail> {
    let alloc = rt.alloc();
    let mut source = MemSource::new(vec![in alloc; b'a'; 9000]?, vec![in alloc; 2u64; 1]?);
    assert!(rt; count_read(alloc, &mut source) == Err(ReadEnd::ReadFault));
    assert!(rt; count_read(alloc, &mut source) == Ok(4904));
    Ok(())
}
