//! Scripts of version 2.
use crate::accepted::fault_of;
use parts_io::MemSink;
use script_reader::{FaultKind, Script, read_script};
use script_writer::{canon_len, write_script};
use std::alloc::{AllocError, Global};
use std::test::Fail;

// A text with so many threads behind a heading.
fn threads(alloc: Global, heading: &[u8], count: u32) -> Result<Vec<u8>, AllocError> {
    let mut text = Vec::new(alloc);
    text.extend_from_slice(heading)?;
    for k in 0..count {
        let line = format!(in alloc; "thread t{k} fifo 5 at 0\nend\n")?;
        text.extend_from_slice(line.as_bytes())?;
    }
    Ok(text)
}

#[test]
fn a_script_has_the_threads_of_its_version(rt: HostRuntime) -> Result<(), Fail> {
    let alloc = rt.alloc();
    let most = threads(alloc, b"version 2\n", 256)?;
    assert_eq!(rt; fault_of(alloc, most.as_slice()), None);
    let more = threads(alloc, b"version 2\n", 257)?;
    assert_eq!(rt;
        fault_of(alloc, more.as_slice()),
        Some((514, FaultKind::TooMany))
    );
    let first = threads(alloc, b"", 65)?;
    assert_eq!(rt;
        fault_of(alloc, first.as_slice()),
        Some((129, FaultKind::TooMany))
    );
    Ok(())
}

// A text, its canonical text, and that as one of version 2.
static TEXTS: [(&str, &str, &str); 3] = [
    (
        "thread a fifo 5 at 0\n  run 03\nend\n",
        "quantum 10\nthread a fifo 5 at 0\nrun 3\nend\n",
        "version 2\nquantum 10\nthread a fifo 5 at 0\nrun 3\nend\n",
    ),
    (
        "# c\n  version 2 # c\nthread s strict 08 2 10 4 1 at 0\n setsched s strict 9 1 7 2 16\nend\nquantum 7\n",
        "version 2\nquantum 7\nthread s strict 8 2 10 4 1 at 0\nsetsched s strict 9 1 7 2 16\nend\n",
        "version 2\nquantum 7\nthread s strict 8 2 10 4 1 at 0\nsetsched s strict 9 1 7 2 16\nend\n",
    ),
    (
        "version 2\nthread s strict 8 2 10 3 4 dormant\nend",
        "version 2\nquantum 10\nthread s strict 8 2 10 3 4 dormant\nend\n",
        "version 2\nquantum 10\nthread s strict 8 2 10 3 4 dormant\nend\n",
    ),
];

// Whether a script has this canonical text, and its length.
fn is_written(alloc: Global, script: &Script, text: &str) -> Result<bool, AllocError> {
    let mut sink = MemSink::open(alloc, 1000, Vec::new(alloc))?;
    let written = write_script(script, &mut sink).is_ok();
    Ok(written && sink.text() == text.as_bytes() && canon_len(script) == text.len() as u64)
}

#[test]
fn a_script_is_written_as_one_of_version_2(rt: HostRuntime) -> Result<(), Fail> {
    let alloc = rt.alloc();
    for &(text, canonical, second) in &TEXTS {
        if text.len() > 1_048_576 {
            continue;
        }
        let Ok(script) = read_script(alloc, text.as_bytes()) else {
            assert!(rt; false);
            return Ok(());
        };
        assert!(rt; is_written(alloc, &script, canonical)?);
        let upgraded = Script {
            version: 2,
            quantum: script.quantum,
            decls: script.decls,
        };
        assert!(rt; is_written(alloc, &upgraded, second)?);
    }
    Ok(())
}
