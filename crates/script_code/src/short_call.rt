//! The calls that are kept whole.
ghost use Rattle.std.specs.Prelude.{◌≡◌, None, IfSome};
ghost use Rattle.script_code.specs.ShortCall.{HasRange, call_of_short};
ghost use Rattle.script_code.specs.declared.short_call.ShortCall.{ShortCall};

use words_numbers::ObjId;
use words_script::Call;

/// A call that is kept whole in its operation: one of those that are made most often. It takes 8 bytes, so that an operation that keeps
/// one takes 16; another call takes 48 by itself.
#[derive(Clone, Copy)]
pub enum ShortCall {
    /// `sched_yield`.
    Yield,
    /// `pthread_mutex_lock` for that mutex.
    Lock(ObjId),
    /// `pthread_mutex_unlock` for that mutex.
    Unlock(ObjId),
    /// `sem_post` for that semaphore.
    Post(ObjId),
    /// `nanosleep` for so many ticks. A sleep for more is no short call.
    Sleep(u32),
}

impl ShortCall {
    /// The call as a short one, where it is one.
    pub fn of(call: &Call) -> Option<ShortCall>
        ensures same { IfSome result (λ short. call_of_short short ≡ call.now) }
        ensures all { result ≡ None → (short : ShortCall) → HasRange short → call_of_short short ≡ call.now → ⊥ }
    {
        match *call {
            Call::Yield => Some(ShortCall::Yield),
            Call::Lock(k) => Some(ShortCall::Lock(k)),
            Call::Unlock(k) => Some(ShortCall::Unlock(k)),
            Call::SemPost(k) => Some(ShortCall::Post(k)),
            Call::Nanosleep(n) if n <= u64::from(u32::MAX) => Some(ShortCall::Sleep(n as u32)),
            _ => None,
        }
    }

    /// The same as a call.
    #[inline(always)]
    pub fn call(&self) -> Call
        ensures { result ≡ call_of_short self.now }
    {
        match *self {
            ShortCall::Yield => Call::Yield,
            ShortCall::Lock(k) => Call::Lock(k),
            ShortCall::Unlock(k) => Call::Unlock(k),
            ShortCall::Post(k) => Call::SemPost(k),
            ShortCall::Sleep(n) => Call::Nanosleep(u64::from(n)),
        }
    }
}
