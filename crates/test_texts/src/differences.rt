//! Traces beside one another, each form of line, and what is no line.
use parts_io::Sink;
use tool_check::{Form, Limited, compare, divide, first_difference, read_line};

const TRACE: &[u8] = b"0 start a\n0 dispatch a 5\n4 exit a\n4 idle\n10 end\nthread a ticks 4\n";

// A trace, and the number of its first line that differs from the right trace.
static DIFFERENCES: [(&[u8], Option<u64>); 6] = [
    (TRACE, None),
    (
        b"0 start a\n0 dispatch a 5\n4 exit a\n4 dispatch a 5\n10 end\nthread a ticks 4\n",
        Some(4),
    ),
    (
        b"0 start a\n0 dispatch a 5\n4 exit a\n4 idle\n10 end\n",
        Some(6),
    ),
    (
        b"0 start a\n0 dispatch a 5\n4 exit a\n4 idle\n10 end\nthread a ticks 4",
        Some(6),
    ),
    (
        b"0 start a\n0 dispatch a 5\n4 exit a\n4 idle\n10 end\nthread a ticks 4\n\n",
        Some(7),
    ),
    (b"", Some(1)),
];

#[test]
fn the_first_line_that_differs(rt: HostRuntime) {
    for &(have, line) in &DIFFERENCES {
        assert_eq!(rt; first_difference(have, TRACE), line);
    }
}

// A line, its form, its time, its name and its numbers.
static FORMS: [(&str, Form, u64, &str, &[u64]); 16] = [
    ("0 dispatch a 1", Form::Dispatch, 0, "a", &[1]),
    (
        "3000000000000000000 idle",
        Form::Idle,
        3_000_000_000_000_000_000,
        "",
        &[],
    ),
    ("2 start a_1", Form::Start, 2, "a_1", &[]),
    ("3 return a exit EAGAIN 0", Form::Return, 3, "a", &[0]),
    ("4 return a mq_timedreceive 0 7", Form::Return, 4, "a", &[7]),
    ("5 deliver a rt31 MESGQ 8", Form::Deliver, 5, "a", &[31, 8]),
    ("6 activate a 9", Form::Activate, 6, "a", &[9]),
    ("7 exhaust a", Form::Exhaust, 7, "a", &[]),
    ("8 plan a 3 10", Form::Plan, 8, "a", &[3, 10]),
    ("9 refill a 3 4", Form::Refill, 9, "a", &[3, 4]),
    ("10 cancel a", Form::Cancel, 10, "a", &[]),
    ("11 exit a", Form::Exit, 11, "a", &[]),
    ("12 killed rt3", Form::Killed, 12, "", &[3]),
    ("13 end", Form::End, 13, "", &[]),
    ("thread a ticks 4", Form::Thread, 0, "a", &[4]),
    (
        "thread a ticks 7 high 4 init 3 refilled 2 capacity 1",
        Form::Budget,
        0,
        "a",
        &[7, 4, 3, 2, 1],
    ),
];

// Whether a line is read as one of this form with these parts.
fn is_read(line: &str, form: Form, time: u64, name: &str, nums: &[u64]) -> bool {
    match read_line(line.as_bytes()) {
        Some(read) => {
            read.form == form
                && read.time == time
                && read.name == name.as_bytes()
                && read.nums.as_slice() == nums
        }
        None => false,
    }
}

#[test]
fn each_form_of_line(rt: HostRuntime) {
    for &(line, form, time, name, nums) in &FORMS {
        assert!(rt; is_read(line, form, time, name, nums), "{line}");
    }
    assert_eq!(rt; Form::Refill.word(), "refill");
    assert_eq!(rt; Form::Budget.word(), "thread");
}

static NO_LINES: [&str; 17] = [
    "",
    " ",
    "0",
    "00 idle",
    "0 idle ",
    "0  idle",
    "0 idle\n",
    "3000000000000000001 idle",
    "0 start A",
    "0 dispatch a 05",
    "0 killed rt32",
    "0 return a run 0 0",
    "0 return a yield ENOENT 0",
    "0 deliver a rt1 KERNEL 0",
    "0 thread a ticks 4",
    "thread a ticks 4 high 1",
    "thread a ticks",
];

#[test]
fn what_is_no_line(rt: HostRuntime) {
    for &line in &NO_LINES {
        assert!(rt; read_line(line.as_bytes()).is_none(), "{line}");
    }
}

#[test]
fn what_does_not_fit_is_counted(rt: HostRuntime) {
    let mut sink = Limited::open(rt.alloc(), 5).expect(&rt, "memory");
    let written = [
        sink.write(b"abc").is_ok(),
        sink.write(b"defg").is_ok(),
        sink.write(b"").is_ok(),
        sink.write(b"h").is_ok(),
    ];
    assert_eq!(rt; written, [true, false, true, false]);
    assert_eq!(rt; sink.text(), b"abcde".as_slice());
}

// A trace, and what is told of it beside the right one.
static TOLD: [(&str, &str); 3] = [
    (
        "0 start a\n0 dispatch a 5\n4 exit a\n4 dispatch a 5\n10 end\nthread a ticks 4\n",
        "differs 4\nwant 4 idle\nhave dispatch\n",
    ),
    (
        "0 start a\n0 dispatch a 5\n4 exit a\n4 idle\n10 end\n",
        "differs 6\nwant thread a ticks 4\nhave nothing\n",
    ),
    ("\n", "differs 1\nwant 0 start a\nhave text\n"),
];

// Whether this is told of a trace beside the right one.
fn is_told(have: &str, told: &str) -> bool {
    match compare(have.as_bytes(), TRACE) {
        Some(text) => text.as_slice() == told.as_bytes(),
        None => false,
    }
}

#[test]
fn what_is_told_of_a_difference(rt: HostRuntime) {
    for &(have, told) in &TOLD {
        assert!(rt; is_told(have, told), "{have}");
    }
    assert!(rt; compare(TRACE, TRACE).is_none());
}

// An input, and its two parts.
static DIVIDED: [(&str, &str, &str); 3] = [
    ("a\n%%\nb\n%%\n", "a\n", "b\n%%\n"),
    ("%%\nb", "", "b"),
    (" %%\n%%", " %%\n", ""),
];

fn is_divided(input: &str, head: &str, trace: &str) -> bool {
    match divide(input.as_bytes()) {
        Some(parts) => parts.0 == head.as_bytes() && parts.1 == trace.as_bytes(),
        None => false,
    }
}

#[test]
fn an_input_of_two_parts(rt: HostRuntime) {
    for &(input, head, trace) in &DIVIDED {
        assert!(rt; is_divided(input, head, trace), "{input}");
    }
    assert!(rt; divide(b"a\n%%%\n").is_none());
}
