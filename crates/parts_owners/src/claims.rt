//! What the execution priorities go by: the claims of threads and the owners of mutexes.
ghost use Rattle.std.specs.Prelude.{IfOk, replicate, ◌≡◌, ◌<◌, length, map, true};
ghost use Rattle.words_script.specs.declared.policy.Protocol.TheVariants as protocol;
ghost use Rattle.rules_machine.specs.Lists.{changed_at, is};
ghost use Rattle.rules_machine.specs.Mutexes.{freed, taken_by};
ghost use Rattle.rules_machine.specs.Threads.{mutex_in, no_mutex};
ghost use Rattle.parts_owners.specs.Fresh.{free_mutex, fresh_claim};
ghost use Rattle.parts_owners.specs.Chains.{OwnersAreThreads, counted, awaited_in, closes_cycle_in, assigned_to, no_claim, waiting_for, next_in};

use parts_filled::filled;
use std::alloc::{AllocError, Global};
use std::marker::Model;
use words_numbers::{ObjId, Prio, Tid};
use words_script::Protocol;

/// The assigned priority of a thread, and the mutex that it waits for.
#[derive(Drop)]
pub struct ThreadClaim {
    pub assigned: Prio,
    pub awaited: Option<ObjId>,
}

impl Model for ThreadClaim {
    ghost use Rattle.rules_machine.specs.Priorities.{Claim};
    ghost use Rattle.parts_owners.specs.Views.{claim_of};

    ghost Value = { Claim };

    ghost view = { claim_of };
}

/// A mutex: what it was declared as, its owner, and how often its owner has locked it.
#[derive(Drop)]
pub struct MutexState {
    pub protocol: Protocol,
    pub is_recursive: bool,
    pub owner: Option<Tid>,
    pub count: u16,
}

impl Model for MutexState {
    ghost use Rattle.rules_machine.specs.State.{Mutex};
    ghost use Rattle.parts_owners.specs.Views.{mutex_of};

    ghost Value = { Mutex };

    ghost view = { mutex_of };
}

impl ThreadClaim {
    pub fn assigned(&self) -> Prio
        ensures { result ≡ self.now.assigned }
    {
        self.assigned
    }

    pub fn awaited(&self) -> Option<ObjId>
        ensures { result ≡ self.now.awaited }
    {
        self.awaited
    }

    fn set_assigned(&mut self, p: Prio)
        ensures { self.new ≡ assigned_to p self.old }
    {
        self.assigned = p;
    }

    fn set_awaited(&mut self, k: Option<ObjId>)
        ensures { self.new ≡ waiting_for k self.old }
    {
        self.awaited = k;
    }

    // Whether the thread waits for the mutex.
    pub(crate) fn awaits(&self, k: usize) -> bool
        ensures { result ≡ is self.now.awaited k }
    {
        match self.awaited {
            Some(o) => o.get() as usize == k,
            None => false,
        }
    }
}

impl MutexState {
    pub fn protocol(&self) -> Protocol
        ensures { result ≡ self.now.protocol }
    {
        self.protocol
    }

    pub fn is_recursive(&self) -> bool
        ensures { result ≡ self.now.is_recursive }
    {
        self.is_recursive
    }

    pub fn count(&self) -> u16
        ensures { result ≡ self.now.count }
    {
        self.count
    }

    fn set_count(&mut self, n: u16)
        ensures { self.new ≡ record self.old { count = n } }
    {
        self.count = n;
    }

    pub fn owner(&self) -> Option<Tid>
        ensures { result ≡ self.now.owner }
    {
        self.owner
    }

    fn set_owner(&mut self, t: Tid)
        ensures { self.new ≡ taken_by t self.old }
    {
        self.owner = Some(t);
        self.count = 1;
    }

    fn set_free(&mut self)
        ensures { self.new ≡ freed self.old }
    {
        self.owner = None;
        self.count = 0;
    }

    /// Whether the thread owns the mutex.
    pub fn is_owned_by(&self, t: Tid) -> bool
        ensures { result ≡ is self.now.owner t }
    {
        match self.owner {
            Some(u) => u == t,
            None => false,
        }
    }
}

/// The assigned priority of a thread is another.
pub(crate) fn assign(claims: &mut [ThreadClaim], t: Tid, p: Prio)
    requires { t < length claims.old }
    ensures { claims.new ≡ changed_at no_claim t (assigned_to p) claims.old }
{
    claims[t.get() as usize].set_assigned(p);
}

/// The mutex that a thread waits for is another.
pub(crate) fn set_wait(claims: &mut [ThreadClaim], t: Tid, k: Option<ObjId>)
    requires { t < length claims.old }
    ensures { claims.new ≡ changed_at no_claim t (waiting_for k) claims.old }
{
    claims[t.get() as usize].set_awaited(k);
}

/// The thread owns the mutex.
pub(crate) fn become_owner(mutexes: &mut [MutexState], k: ObjId, t: Tid)
    requires { k < length mutexes.old }
    ensures { mutexes.new ≡ changed_at no_mutex k (taken_by t) mutexes.old }
{
    mutexes[k.get() as usize].set_owner(t);
}

/// The mutex is counted so often.
pub(crate) fn set_count(mutexes: &mut [MutexState], k: ObjId, n: u16)
    requires { k < length mutexes.old }
    ensures { mutexes.new ≡ changed_at no_mutex k (counted n) mutexes.old }
{
    mutexes[k.get() as usize].set_count(n);
}

/// The mutex is free.
pub(crate) fn set_free(mutexes: &mut [MutexState], k: ObjId)
    requires { k < length mutexes.old }
    ensures { mutexes.new ≡ changed_at no_mutex k freed mutexes.old }
{
    mutexes[k.get() as usize].set_free();
}

/// Whether the thread waits for the mutex.
pub(crate) fn is_awaited(claims: &[ThreadClaim], k: ObjId, t: Tid) -> bool
    requires { t < length claims.now }
    ensures { result ≡ is (awaited_in claims.now t) k }
{
    claims[t.get() as usize].awaits(k.get() as usize)
}

/// Whether the mutex lends nothing and has no ceiling.
pub(crate) fn is_plain(mutexes: &[MutexState], k: ObjId) -> bool
    requires { k < length mutexes.now }
    ensures { result ≡ true → (mutex_in mutexes.now k).protocol ≡ protocol.Plain }
{
    match mutexes[k.get() as usize].protocol() {
        Protocol::Plain => true,
        Protocol::Inherit => false,
        Protocol::Protect(_) => false,
    }
}

/// The owner of the mutex that the thread waits for.
pub(crate) fn next(claims: &[ThreadClaim], mutexes: &[MutexState], t: Tid) -> Option<Tid>
    requires { t < length claims.now }
    ensures { result ≡ next_in claims.now mutexes.now t }
{
    let k = claims[t.get() as usize].awaited()?;
    let k = k.get() as usize;
    if k < mutexes.len() {
        return mutexes[k].owner();
    }
    None
}

/// Whether owners and their mutex waits lead from the mutex to the thread.
pub(crate) fn leads_to(claims: &[ThreadClaim], mutexes: &[MutexState], k: ObjId, t: Tid) -> bool
    requires mutex { k < length mutexes.now }
    requires owners { OwnersAreThreads claims.now mutexes.now }
    ensures { result ≡ closes_cycle_in claims.now mutexes.now t k }
{
    let mut owner = mutexes[k.get() as usize].owner();
    for _ in 0..claims.len() {
        let Some(u) = owner else {
            return false;
        };
        if u == t {
            return true;
        }
        owner = next(claims, mutexes, u);
    }
    false
}

/// The protocol of a mutex, and whether it is recursive.
#[derive(Clone, Copy)]
pub struct MutexKind {
    pub protocol: Protocol,
    pub is_recursive: bool,
}

/// Claims of so many threads at priority 1.
pub(crate) fn fresh_claims(alloc: Global, threads: u16) -> Result<Vec<ThreadClaim>, AllocError>
    ensures { IfOk result (λ v. v.items ≡ replicate threads fresh_claim) }
{
    let mut claims = Vec::with_capacity(alloc, threads as usize)?;
    for _ in 0..threads {
        claims.push(ThreadClaim {
            assigned: Prio::default(),
            awaited: None,
        })?;
    }
    Ok(claims)
}

/// As many priorities 1.
pub(crate) fn lowest(alloc: Global, threads: u16) -> Result<Vec<Prio>, AllocError>
    ensures { IfOk result (λ v. v.items ≡ replicate threads 1) }
{
    filled(alloc, usize::from(threads), Prio::default())
}

/// Free mutexes of these kinds.
pub(crate) fn free_mutexes(
    alloc: Global,
    kinds: &[MutexKind],
) -> Result<Vec<MutexState>, AllocError>
    ensures { IfOk result (λ v. v.items ≡ map free_mutex kinds.now) }
{
    let mut mutexes = Vec::with_capacity(alloc, kinds.len())?;
    for kind in kinds {
        mutexes.push(MutexState {
            protocol: kind.protocol,
            is_recursive: kind.is_recursive,
            owner: None,
            count: 0,
        })?;
    }
    Ok(mutexes)
}
