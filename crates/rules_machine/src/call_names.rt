//! What the trace calls a call.
ghost use Rattle.std.specs.Prelude.{◌≡◌};
ghost use Rattle.rules_machine.specs.CallNames.{name_of};

use words_script::Call;
use words_trace::CallName;

/// The name of a call: the first word of its line.
pub fn call_name(call: &Call) -> CallName
    ensures { result ≡ name_of call.now }
{
    match call {
        Call::Yield => CallName::Yield,
        Call::Create(_) => CallName::Create,
        Call::Join(_) => CallName::Join,
        Call::Cancel(_) => CallName::Cancel,
        Call::Testcancel => CallName::Testcancel,
        Call::Setcancel(_) => CallName::Setcancel,
        Call::Push(_) => CallName::Push,
        Call::Pop(_) => CallName::Pop,
        Call::Exit(_) => CallName::Exit,
        Call::Setprio(_, _) => CallName::Setprio,
        Call::Setsched(_, _) => CallName::Setsched,
        Call::Lock(_) => CallName::Lock,
        Call::Timedlock { .. } => CallName::Timedlock,
        Call::Trylock(_) => CallName::Trylock,
        Call::Unlock(_) => CallName::Unlock,
        Call::Wait(_, _) => CallName::Wait,
        Call::Timedwait { .. } => CallName::Timedwait,
        Call::Signal(_) => CallName::Signal,
        Call::Broadcast(_) => CallName::Broadcast,
        Call::SemWait(_) => CallName::SemWait,
        Call::SemTimedwait { .. } => CallName::SemTimedwait,
        Call::SemTrywait(_) => CallName::SemTrywait,
        Call::SemGetvalue(_) => CallName::SemGetvalue,
        Call::SemPost(_) => CallName::SemPost,
        Call::Nanosleep(_) => CallName::Nanosleep,
        Call::ClockNanosleep { .. } => CallName::ClockNanosleep,
        Call::Gettime => CallName::Gettime,
        Call::RealGettime => CallName::RealGettime,
        Call::ClockSettime(_) => CallName::ClockSettime,
        Call::TimerSettimeRel(_, _, _) => CallName::TimerSettime,
        Call::TimerSettimeAbs(_, _, _) => CallName::TimerSettime,
        Call::TimerGettime(_) => CallName::TimerGettime,
        Call::TimerGetoverrun(_) => CallName::TimerGetoverrun,
        Call::Kill(_) => CallName::Kill,
        Call::Tkill(_, _) => CallName::Tkill,
        Call::Sigqueue(_, _) => CallName::Sigqueue,
        Call::SigmaskBlock(_) => CallName::Sigmask,
        Call::SigmaskUnblock(_) => CallName::Sigmask,
        Call::SigmaskSet(_) => CallName::Sigmask,
        Call::Sigwaitinfo(_) => CallName::Sigwaitinfo,
        Call::Sigtimedwait(_, _) => CallName::Sigtimedwait,
        Call::MqSend(_, _, _, _) => CallName::MqSend,
        Call::MqTimedsend { .. } => CallName::MqTimedsend,
        Call::MqReceive(_) => CallName::MqReceive,
        Call::MqTimedreceive { .. } => CallName::MqTimedreceive,
        Call::MqNotify(_, _, _) => CallName::MqNotify,
    }
}
