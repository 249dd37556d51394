//! The mutexes that a thread owns: how many there are, and whether one can raise its priority.
ghost use Rattle.std.specs.Prelude.{◌≡◌, filter, length};
ghost use Rattle.std.specs.List.{list_any};
ghost use Rattle.rules_machine.specs.Lists.{is};
ghost use Rattle.rules_machine.specs.Mutexes.{is_boosting};
ghost use Rattle.rules_machine.specs.State.{Mutex};

use crate::claims::MutexState;
use words_numbers::Tid;
use words_script::Protocol;

impl MutexState {
    // Whether it can raise its owner's priority.
    fn is_boosting(&self) -> bool
        ensures { result ≡ is_boosting self.now.protocol }
    {
        match self.protocol {
            Protocol::Plain => false,
            Protocol::Inherit => true,
            Protocol::Protect(_) => true,
        }
    }
}

/// Whether the thread owns a mutex that can raise its priority.
#[tactic(auto, using(crate::proofs::Owned::none_more, crate::proofs::Owned::found))]
pub(crate) fn owns_boosting(mutexes: &[MutexState], t: Tid) -> bool
    ensures { result ≡ list_any (λ (k : Mutex). is_boosting k.protocol) (filter (λ (k : Mutex). is k.owner t) mutexes.now) }
{
    for k in mutexes {
        if k.is_owned_by(t) && k.is_boosting() {
            return true;
        }
    }
    false
}

/// How many mutexes the thread owns.
#[tactic(auto, using(crate::proofs::Owned::counted_more))]
pub(crate) fn owned_count(mutexes: &[MutexState], t: Tid) -> usize
    ensures { result ≡ length (filter (λ (k : Mutex). is k.owner t) mutexes.now) }
{
    let mut count = 0;
    for k in mutexes {
        if k.is_owned_by(t) {
            count += 1;
        }
    }
    count
}
