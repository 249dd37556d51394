//! Which calls are cancellation points.
ghost use Rattle.std.specs.Prelude.{◌≡◌};
ghost use Rattle.rules_machine.specs.Cancellation.{is_cancellation_point};

use words_script::Call;

/// Whether a call is a cancellation point, IEEE 1003.1-2017, XSH 2.9.5.2: there a request for cancellation acts in its place.
#[inline(always)]
pub fn is_cancellation_point(call: &Call) -> bool
    ensures { result ≡ is_cancellation_point call.now }
{
    match call {
        Call::Join(_) => true,
        Call::Testcancel => true,
        Call::Wait(_, _) => true,
        Call::Timedwait { .. } => true,
        Call::SemWait(_) => true,
        Call::SemTimedwait { .. } => true,
        Call::Nanosleep(_) => true,
        Call::ClockNanosleep { .. } => true,
        Call::Sigwaitinfo(_) => true,
        Call::Sigtimedwait(_, _) => true,
        Call::MqSend(_, _, _, _) => true,
        Call::MqTimedsend { .. } => true,
        Call::MqReceive(_) => true,
        Call::MqTimedreceive { .. } => true,
        _ => false,
    }
}
