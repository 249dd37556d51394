//! What each call is on.
//!
//! Proved: `subject_of` tells what a call is on as the definition does.
#![tactic(auto)]

ghost use Rattle.std.specs.Prelude.{◌≡◌};
ghost use Rattle.calls_subjects.specs.Subjects.{subject_of};

use words_script::Call;

/// What a call is on. Each has a crate with the effects of its calls, and their table.
pub enum Subject {
    /// What runs and when: the processor, the creation and policies of threads, sleeping, and reading the clocks.
    Scheduling,
    /// The ends of threads, and their cancellation.
    Threads,
    /// Mutexes, conditions and semaphores.
    Sync,
    /// Signals, the timers that send them, and setting CLOCK_REALTIME.
    Signals,
    /// Message queues.
    Queues,
}

/// What a call is on.
#[inline(always)]
pub fn subject_of(call: &Call) -> Subject
    ensures { result ≡ subject_of call.now }
{
    match call {
        Call::Yield | Call::Create(_) | Call::Setprio(_, _) | Call::Setsched(_, _) =>
            Subject::Scheduling,
        Call::Nanosleep(_) | Call::ClockNanosleep { .. } => Subject::Scheduling,
        Call::Gettime | Call::RealGettime => Subject::Scheduling,
        Call::Join(_) | Call::Cancel(_) | Call::Testcancel => Subject::Threads,
        Call::Setcancel(_) | Call::Push(_) | Call::Pop(_) | Call::Exit(_) => Subject::Threads,
        Call::Lock(_) | Call::Timedlock { .. } | Call::Trylock(_) | Call::Unlock(_) =>
            Subject::Sync,
        Call::Wait(_, _) | Call::Timedwait { .. } => Subject::Sync,
        Call::Signal(_) | Call::Broadcast(_) => Subject::Sync,
        Call::SemWait(_) | Call::SemTimedwait { .. } | Call::SemTrywait(_) => Subject::Sync,
        Call::SemGetvalue(_) | Call::SemPost(_) => Subject::Sync,
        Call::MqSend(_, _, _, _) | Call::MqTimedsend { .. } => Subject::Queues,
        Call::MqReceive(_) | Call::MqTimedreceive { .. } => Subject::Queues,
        Call::MqNotify(_, _, _) => Subject::Queues,
        _ => Subject::Signals,
    }
}
