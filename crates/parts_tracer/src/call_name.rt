//! The words of calls.
ghost use Rattle.std.specs.Prelude.{◌≡◌, ◌≤◌, ◌+◌, length, take};
ghost use Rattle.parts_bytes.specs.Placed.{Placed};
ghost use Rattle.words_trace.specs.Calls.{call_word};

use parts_bytes::place_within;
use words_trace::CallName;

// The word of each call, with blanks behind it, and how long it is.
static WORDS: [([u8; 16], usize); 43] = [
    (*b"yield           ", 5),
    (*b"create          ", 6),
    (*b"join            ", 4),
    (*b"cancel          ", 6),
    (*b"testcancel      ", 10),
    (*b"setcancel       ", 9),
    (*b"push            ", 4),
    (*b"pop             ", 3),
    (*b"exit            ", 4),
    (*b"setprio         ", 7),
    (*b"setsched        ", 8),
    (*b"lock            ", 4),
    (*b"timedlock       ", 9),
    (*b"trylock         ", 7),
    (*b"unlock          ", 6),
    (*b"wait            ", 4),
    (*b"timedwait       ", 9),
    (*b"signal          ", 6),
    (*b"broadcast       ", 9),
    (*b"sem_wait        ", 8),
    (*b"sem_timedwait   ", 13),
    (*b"sem_trywait     ", 11),
    (*b"sem_getvalue    ", 12),
    (*b"sem_post        ", 8),
    (*b"nanosleep       ", 9),
    (*b"clock_nanosleep ", 15),
    (*b"gettime         ", 7),
    (*b"real_gettime    ", 12),
    (*b"clock_settime   ", 13),
    (*b"timer_settime   ", 13),
    (*b"timer_gettime   ", 13),
    (*b"timer_getoverrun", 16),
    (*b"kill            ", 4),
    (*b"tkill           ", 5),
    (*b"sigqueue        ", 8),
    (*b"sigmask         ", 7),
    (*b"sigwaitinfo     ", 11),
    (*b"sigtimedwait    ", 12),
    (*b"mq_send         ", 7),
    (*b"mq_timedsend    ", 12),
    (*b"mq_receive      ", 10),
    (*b"mq_timedreceive ", 15),
    (*b"mq_notify       ", 9),
];

// A text that begins with the first word of a call, and how long the word is.
#[inline(always)]
fn entry(call: CallName) -> (&'static [u8], usize)
    ensures word { take result.1 result.0.now ≡ call_word call }
    ensures text { length result.0.now ≡ 16 }
    ensures short { result.1 ≤ 16 }
{
    let (text, len) = &WORDS[call as usize];
    (text.as_slice(), *len)
}

/// The first word of a call, as a script spells it.
pub fn call_text(call: CallName) -> &'static [u8]
    ensures word { result.now ≡ call_word call }
    ensures short { length result.now ≤ 16 }
{
    let (text, len) = entry(call);
    &text[..len]
}

// Puts the word at a place with room for any, and answers the place behind it.
#[inline(always)]
pub(crate) fn place_call_text(buf: &mut [u8], at: usize, call: CallName) -> usize
    requires { at + 16 ≤ length buf.old }
    ensures placed { Placed buf.old buf.new at (call_word call) result }
    ensures within { result ≤ at + 16 }
{
    let (text, len) = entry(call);
    place_within::<16>(buf, at, text, len)
}
