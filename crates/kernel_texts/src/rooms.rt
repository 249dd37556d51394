//! How large the rooms for the texts of a run's facts are.
ghost use Rattle.std.specs.Prelude.{◌≡◌, ◌≤◌, ◌<◌, ◌+◌, ◌*◌, ◌^◌, length};
ghost use Rattle.rules_machine.specs.Declarations.{mutexes_of, queues_of, semaphores_of, threads_of, timers_of};
ghost use Rattle.kernel_texts.specs.Rooms.{AreRooms, HasFewOfEach, deepest, depth_of, facts_told, members_told};

use script_writer::name_count;
use words_script::{Decl, Kind, NameKind, Script};

/// The rooms for the texts of the facts of an instant.
#[derive(Clone, Copy)]
pub struct Rooms {
    /// How many texts there are.
    pub most: usize,
    /// The bytes of all of them.
    pub room: usize,
    /// The bytes of one.
    pub longest: usize,
}

fn depth_of(decl: &Decl) -> usize
    ensures depth { result ≡ depth_of decl.now }
    ensures few { result < 2 ^ 32 }
{
    match decl {
        Decl::Named(_, Kind::Queue { depth, .. }) => *depth as usize,
        _ => 0,
    }
}

fn deepest(decls: &[Decl]) -> usize
    ensures depth { result ≡ deepest decls.now }
    ensures few { result < 2 ^ 32 }
{
    let mut most = 0;
    for decl in decls {
        most = depth_of(decl).max(most);
    }
    most
}

#[tactic(auto, using(crate::proofs::Counted::threads_named))]
fn thread_count(script: &Script) -> usize
    ensures { result ≡ length (threads_of script.now) }
{
    name_count(script.decls.items(), NameKind::Thread)
}

#[tactic(auto, using(crate::proofs::Counted::mutexes_named))]
fn mutex_count(script: &Script) -> usize
    ensures { result ≡ length (mutexes_of script.now) }
{
    name_count(script.decls.items(), NameKind::Mutex)
}

#[tactic(auto, using(crate::proofs::Counted::semaphores_named))]
fn semaphore_count(script: &Script) -> usize
    ensures { result ≡ length (semaphores_of script.now) }
{
    name_count(script.decls.items(), NameKind::Sem)
}

#[tactic(auto, using(crate::proofs::Counted::queues_named))]
fn queue_count(script: &Script) -> usize
    ensures { result ≡ length (queues_of script.now) }
{
    name_count(script.decls.items(), NameKind::Queue)
}

#[tactic(auto, using(crate::proofs::Counted::timers_named))]
fn timer_count(script: &Script) -> usize
    ensures { result ≡ length (timers_of script.now) }
{
    name_count(script.decls.items(), NameKind::Timer)
}

// How many signals may be pending at once.
const MOST_PENDING: usize = 112;

// The facts of the 255 lists and of the 32 signals.
const LISTS_AND_SIGNALS: usize = 287;

fn members_told(script: &Script) -> usize
    requires { HasFewOfEach script.now }
    ensures members { result ≡ members_told script.now }
    ensures few { result ≤ 4294967663 }
{
    MOST_PENDING + thread_count(script) + deepest(script.decls.items())
}

fn facts_told(script: &Script) -> usize
    requires { HasFewOfEach script.now }
    ensures facts { result ≡ facts_told script.now }
    ensures few { result ≤ 4383 }
{
    let conditions = name_count(script.decls.items(), NameKind::Cond);
    let locks = 2 * mutex_count(script) + conditions + 2 * semaphore_count(script);
    LISTS_AND_SIGNALS
        + 6 * thread_count(script)
        + locks
        + 4 * queue_count(script)
        + timer_count(script)
}

/// The rooms that the facts of a script's run need at each instant.
pub fn rooms_of(script: &Script) -> Rooms
    requires { HasFewOfEach script.now }
    ensures rooms { AreRooms script.now result }
    ensures few { result.most < 2 ^ 32 }
    ensures small { result.room < 2 ^ 51 }
    ensures short { result.longest < 2 ^ 40 }
{
    let most = facts_told(script);
    let longest = 71 * members_told(script) + 400;
    Rooms {
        most,
        room: most * longest,
        longest,
    }
}
