//! Waits for a time on CLOCK_REALTIME.
ghost use Rattle.std.specs.Prelude.{◌≡◌, ℕ};
ghost use Rattle.rules_machine.specs.Clock.{is_on_real, thread_moved, waits_on_real};
ghost use Rattle.kernel_threads.specs.RealDues.{real_due_if, real_due_in};

use crate::status::Phase;
use crate::thread::Thread;
use words_numbers::Tick;
use words_script::{Call, Moment};

fn is_on_real(at: &Moment) -> bool
    ensures { result ≡ is_on_real at.now }
{
    match at {
        Moment::Monotonic(_) => false,
        Moment::Realtime(_) => true,
    }
}

// Whether a call waits for a time on CLOCK_REALTIME.
#[inline(always)]
fn waits_on_real(call: &Call) -> bool
    ensures { result ≡ waits_on_real call.now }
{
    match call {
        Call::Timedlock { at, .. } => is_on_real(at),
        Call::Timedwait { at, .. } => is_on_real(at),
        Call::SemTimedwait { at, .. } => is_on_real(at),
        Call::ClockNanosleep { at } => is_on_real(at),
        Call::MqTimedsend { at, .. } => is_on_real(at),
        Call::MqTimedreceive { at, .. } => is_on_real(at),
        _ => false,
    }
}

/// When a wait in that call ends by itself, where that is a time on CLOCK_REALTIME. Where it does not end by itself, the call is not
/// looked at.
#[inline(always)]
pub fn real_due(due: &Option<Tick>, call: &Call) -> Option<Tick>
    ensures { result ≡ real_due_if due.now (waits_on_real call.now) }
{
    match due {
        None => None,
        Some(at) => { if waits_on_real(call) { Some(*at) } else { None } }
    }
}

impl Thread {
    /// When its wait ends by itself, where that is a time on CLOCK_REALTIME.
    pub fn real_due(&self) -> Option<Tick>
        ensures { result ≡ real_due_in self.now.status }
    {
        match self.phase {
            Phase::Blocked => real_due(&self.waiting.due, &self.waiting.call),
            _ => None,
        }
    }

    /// Its wait for a time on CLOCK_REALTIME ends by itself then; any other stays as it is.
    pub fn move_real_due(&mut self, due: Tick)
        ensures { self.new ≡ thread_moved (λ (at : ℕ). due) self.old }
    {
        if self.real_due().is_some() {
            self.waiting.due = Some(due);
        }
    }
}
