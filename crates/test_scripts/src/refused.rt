//! One text for each kind of fault, which is refused for it. tests/refused/FAULTS.txt has many more, for the program and the reference.
use script_reader::{FaultKind, ScriptEnd, read_script};
use std::alloc::Global;

struct Case {
    line: u32,
    kind: FaultKind,
    text: &'static [u8],
}

macro_rules! case {
    ($line:literal $kind:ident $text:literal) => {
        Case { line: $line, kind: FaultKind::$kind, text: $text }
    };
}

static CASES: [Case; 16] = [
    case!(2 BadByte b"thread a fifo 5 at 0\nend \x1f\n"),
    case!(2 UnknownWord b"thread a fifo 5 at 0\nfrob\nend\n"),
    case!(2 WordCount b"thread a fifo 5 at 0\nrun\nend\n"),
    case!(2 BadNumber b"thread a fifo 5 at 0\nset -1\nend\n"),
    case!(2 NumberRange b"thread a fifo 5 at 0\nrun 0\nend\n"),
    case!(1 BadName b"thread A fifo 5 at 0\nend\n"),
    case!(3 DuplicateName b"handler a\nend\nthread a fifo 5 at 0\nend\n"),
    case!(2 UnknownName b"thread a fifo 5 at 0\ncreate b\nend\n"),
    case!(4 WrongKind b"cleanup u\nend\nthread a fifo 5 at 0\ncreate u\nend\n"),
    case!(1 ServerRange b"thread s sporadic 5 5 20 5 4 at 0\nend\n"),
    case!(1 BadVersion b"version 3\nthread a fifo 5 at 0\nend\n"),
    case!(2 TooMany b"quantum 5\nquantum 5\nthread a fifo 5 at 0\nend\n"),
    case!(2 NoThread b"quantum 5\n"),
    case!(2 NotHere b"thread a fifo 5 at 0\nquantum 5\nend\n"),
    case!(3 StrayClose b"thread a fifo 5 at 0\nend\nend\n"),
    case!(4 Unclosed b"thread a fifo 5 at 0\nloop 1\nend\n"),
];

fn is_refused(alloc: Global, case: &Case) -> bool {
    if case.text.len() > 1_048_576 {
        return false;
    }
    match read_script(alloc, case.text) {
        Err(ScriptEnd::Fault(line, kind)) => line == case.line && kind == case.kind,
        _ => false,
    }
}

#[test]
fn each_kind_of_fault_is_found_at_its_line(rt: HostRuntime) {
    for case in &CASES {
        assert!(rt; is_refused(rt.alloc(), case));
    }
}
