//! Canonical texts, and that they are read back.
use parts_io::MemSink;
use script_reader::read_script;
use script_writer::write_script;
use std::alloc::Global;
use std::test::Fail;

// A text and its canonical text; the last four are the scripts of examples/.
static TEXTS: [(&str, &str); 8] = [
    (
        "# c\nthread a fifo 007 at 0 # x\nrun 01\nend\n",
        "quantum 10\nthread a fifo 7 at 0\nrun 1\nend\n",
    ),
    (
        "thread a fifo 5 at 0\n  yield\nend\nthread b fifo 5 dormant\n\trun 1\nend",
        "quantum 10\nthread a fifo 5 at 0\nyield\nend\nthread b fifo 5 dormant\nrun 1\nend\n",
    ),
    (
        "handler h\nset 1\nend\nquantum 07\ncleanup u\nadd 2\ntake\nend\n\
            thread a fifo 255 at 1000000000000000000\nunless EAGAIN\nforever\nend\nend\nend\n",
        "quantum 7\nhandler h\nset 1\nend\ncleanup u\nadd 2\ntake\nend\n\
            thread a fifo 255 at 1000000000000000000\nunless EAGAIN\nforever\nend\nend\nend\n",
    ),
    (
        "thread s sporadic 08 2 20 5 4 at 3\nnanosleep 010\ngettime\nend\nthread r rr 8 dormant\nsetprio s 7\nend\nthread m rr 9 at 0\ncreate r\nsetsched s fifo 9\nsetsched r rr 9\nsetsched m sporadic 9 1 50 50 16\nend\n",
        "quantum 10\nthread s sporadic 8 2 20 5 4 at 3\nnanosleep 10\ngettime\nend\nthread r rr 8 dormant\nsetprio s 7\nend\nthread m rr 9 at 0\ncreate r\nsetsched s fifo 9\nsetsched r rr 9\nsetsched m sporadic 9 1 50 50 16\nend\n",
    ),
    (
        "# horizon 10\nthread a fifo 5 at 0\nrun 3\nend\n",
        "quantum 10\nthread a fifo 5 at 0\nrun 3\nend\n",
    ),
    (
        "# horizon 12. A preempted thread resumes at the head of its list: b, as urgent as a, waits until a is done.\n\
            thread a fifo 5 at 0\nrun 4\nend\nthread b fifo 5 at 0\nrun 1\nend\nthread c fifo 9 at 2\nrun 1\nend\n",
        "quantum 10\nthread a fifo 5 at 0\nrun 4\nend\nthread b fifo 5 at 0\nrun 1\nend\nthread c fifo 9 at 2\n\
            run 1\nend\n",
    ),
    (
        "# horizon 8. A thread that yields goes to the tail of its list.\nthread a fifo 5 at 0\nyield\nend\n\
            thread b fifo 5 at 0\nrun 1\nend\n",
        "quantum 10\nthread a fifo 5 at 0\nyield\nend\nthread b fifo 5 at 0\nrun 1\nend\n",
    ),
    (
        "# horizon 12. Loops, tests and register steps: a loop of two passes jumps once, and tests take no time.\n\
            thread a fifo 5 at 0\nset 7\nloop 2\nrun 1\nend\nyield\nif 0\nrun 2\nend\nunless 0\nrun 9\nend\nend\n",
        "quantum 10\nthread a fifo 5 at 0\nset 7\nloop 2\nrun 1\nend\nyield\nif 0\nrun 2\nend\nunless 0\n\
            run 9\nend\nend\n",
    ),
];

// Reads a text and writes its canonical text; whether it was a script and was written.
fn write_canonical(alloc: Global, text: &[u8], sink: &mut MemSink) -> Result<bool, Fail> {
    if text.len() > 1_048_576 {
        return Ok(false);
    }
    match read_script(alloc, text) {
        Ok(script) => Ok(write_script(&script, sink).is_ok()),
        Err(_) => Ok(false),
    }
}

#[test]
fn canonical_texts_are_read_back(rt: HostRuntime) -> Result<(), Fail> {
    let alloc = rt.alloc();
    for &(text, canonical) in &TEXTS {
        let mut sink = MemSink::open(alloc, 1000, Vec::new(alloc))?;
        assert!(rt; write_canonical(alloc, text.as_bytes(), &mut sink)?);
        assert_eq!(rt; sink.text(), canonical.as_bytes());
        let mut again = MemSink::open(alloc, 1000, Vec::new(alloc))?;
        assert_eq!(rt;
            write_canonical(alloc, canonical.as_bytes(), &mut again)?,
            true
        );
        assert_eq!(rt; again.text(), canonical.as_bytes());
    }
    Ok(())
}

#[test]
fn up_to_a_failed_write(rt: HostRuntime) -> Result<(), Fail> {
    let alloc = rt.alloc();
    let (text, _) = TEXTS[0];
    let mut sink = MemSink::open(alloc, 1000, vec![in alloc; 2u64; 1]?)?;
    assert_eq!(rt; write_canonical(alloc, text.as_bytes(), &mut sink)?, false);
    assert_eq!(rt; sink.text(), b"quantum 10\n".as_slice());
    Ok(())
}
