//! The script of a number: its threads, and what they share.
ghost use Rattle.std.specs.Prelude.{◌≡◌, ◌≤◌, ◌<◌, ◌+◌, ◌++◌, ◌∷◌, ◌^◌, IfOk, Some, None, true, codes, decimal};
ghost use Rattle.words_script.specs.Names.{is_name};
ghost use Rattle.words_script.specs.Tree.{block_of};
ghost use Rattle.words_script.specs.Block.{Making, Nothing, Running};
ghost use Rattle.words_script.specs.declared.call.Call.TheVariants.{Nanosleep};
ghost use Rattle.script_generator.specs.Generated.{policy_of, policy_from, holding, deed_of, body_of, body_from, hold, after_deed, task_from, thread_from, shared, script_of};

use crate::draws::Draws;
use arrayvec::ArrayVec;
use itoa::Buffer;
use std::alloc::{AllocError, Global};
use words_numbers::{ObjId, Params, Prio};
use words_script::{Body, Call, Decl, Decls, Kind, Name, Operand, Policy, Protocol, Script, Step};

// The name that these bytes spell.
fn name(bytes: &[u8]) -> Name
    requires { is_name bytes.now ≡ true }
    ensures { result ≡ bytes.now }
{
    Name::try_new(bytes).unwrap()
}

// `t` and the number.
fn name_bytes(number: u8) -> ArrayVec<u8, 32>
    requires { number < 64 }
    ensures { result.items ≡ codes "t" ++ decimal number }
{
    let mut text = ArrayVec::new();
    text.push(b't');
    text.try_extend_from_slice(Buffer::new().format(number).as_bytes())
        .unwrap();
    text
}

#[tactic(auto, using(crate::proofs::Names::thread_named))]
fn thread_name(number: u8) -> Name
    requires { number < 64 }
    ensures { result ≡ codes "t" ++ decimal number }
{
    name(name_bytes(number).as_slice())
}

fn prio(level: u8) -> Prio
    requires { 1 ≤ level }
    ensures { result ≡ level }
{
    Prio::try_new(level).unwrap()
}

fn object(number: u16) -> ObjId
    requires { number < 256 }
    ensures { result ≡ number }
{
    ObjId::try_new(number).unwrap()
}

fn server(high: u8, budget: u64, max: u8) -> Params
    requires high { 2 ≤ high }
    requires some { 1 ≤ budget }
    requires within { budget ≤ 50 }
    requires pending { 1 ≤ max }
    requires few { max ≤ 16 }
    ensures { result ≡ record { high = high; low = 1; period = 50; budget = budget; max = max } }
{
    match Params::try_new(prio(high), prio(1), 50, budget, max) {
        Some(params) => params,
        None => unreachable!(),
    }
}

// By kind 0 FIFO, 1 RR, else a sporadic server.
fn policy_of(kind: u64, level: u8, draws: &mut Draws) -> Policy
    requires { 2 ≤ level }
    ensures { policy_of kind level draws.old ≡ record { value = result; state = draws.new } }
{
    if kind == 0 {
        Policy::Fifo(prio(level))
    } else if kind == 1 {
        Policy::Rr(prio(level))
    } else {
        let budget = 1 + draws.draw(10);
        let max = 1 + draws.draw(16);
        Policy::Sporadic(server(level, budget, max as u8))
    }
}

fn policy(draws: &mut Draws) -> Policy
    ensures { policy_from draws.old ≡ record { value = result; state = draws.new } }
{
    let kind = draws.draw(3);
    let level = 2 + draws.draw(200);
    policy_of(kind, level as u8, draws)
}

// It runs, holds a mutex and sleeps.
fn holding_steps(
    alloc: Global,
    run: u64,
    mutex: u16,
    ticks: u64,
    sleep: u64,
) -> Result<Vec<Step>, AllocError>
    requires { mutex < 256 }
    ensures { IfOk result (λ steps. block_of steps.items ≡ Running run (holding mutex ticks (Making (Nanosleep sleep) Nothing))) }
{
    Ok(vec![in alloc;
        Step::Run(run),
        Step::Make(Call::Lock(object(mutex))),
        Step::Run(ticks),
        Step::Make(Call::Unlock(object(mutex))),
        Step::Make(Call::Nanosleep(sleep)),
    ]?)
}

// It runs, does its deed and sleeps: the deeds 0 and 1 hold that mutex, 2 posts and sends, 3 receives.
fn steps(
    alloc: Global,
    run: u64,
    deed: u64,
    ticks: u64,
    sleep: u64,
) -> Result<Vec<Step>, AllocError>
    ensures { IfOk result (λ steps. block_of steps.items ≡ Running run (deed_of deed ticks (Making (Nanosleep sleep) Nothing))) }
{
    if deed == 0 {
        holding_steps(alloc, run, 0, ticks, sleep)
    } else if deed == 1 {
        holding_steps(alloc, run, 1, ticks, sleep)
    } else if deed == 2 {
        Ok(vec![in alloc;
            Step::Run(run),
            Step::Make(Call::SemPost(object(0))),
            Step::Make(Call::MqSend(object(0), 8, 1, Operand::Num(1))),
            Step::Make(Call::Nanosleep(sleep)),
        ]?)
    } else {
        Ok(vec![in alloc;
            Step::Run(run),
            Step::Make(Call::MqReceive(object(0))),
            Step::Make(Call::Nanosleep(sleep)),
        ]?)
    }
}

fn body_of(alloc: Global, run: u64, deed: u64, ticks: u64, sleep: u64) -> Result<Body, AllocError>
    ensures { IfOk result (λ body. body ≡ body_of run deed ticks sleep) }
{
    let steps = steps(alloc, run, deed, ticks, sleep)?;
    let forever = Step::Loop {
        times: None,
        body: Body::new(steps),
    };
    Ok(Body::new(vec![in alloc; forever]?))
}

// How long the deed holds a mutex, in ticks.
fn hold(deed: u64, draws: &mut Draws) -> u64
    ensures value { result ≡ hold deed draws.old }
    ensures state { draws.new ≡ after_deed deed draws.old }
{
    if deed < 2 { 1 + draws.draw(5) } else { 0 }
}

fn body(alloc: Global, run: u64, deed: u64, draws: &mut Draws) -> Result<Body, AllocError>
    ensures { IfOk result (λ body. body_from run deed draws.old ≡ record { value = body; state = draws.new }) }
{
    let ticks = hold(deed, draws);
    let sleep = 1 + draws.draw(500);
    body_of(alloc, run, deed, ticks, sleep)
}

fn task(alloc: Global, draws: &mut Draws) -> Result<Body, AllocError>
    ensures { IfOk result (λ body. task_from draws.old ≡ record { value = body; state = draws.new }) }
{
    let run = 1 + draws.draw(9);
    let deed = draws.draw(4);
    body(alloc, run, deed, draws)
}

// The thread of this number.
fn thread(alloc: Global, number: u8, draws: &mut Draws) -> Result<Decl, AllocError>
    requires { number < 64 }
    ensures { IfOk result (λ decl. thread_from number draws.old ≡ record { value = decl; state = draws.new }) }
{
    let policy = policy(draws);
    let start = Some(draws.draw(100));
    let body = task(alloc, draws)?;
    Ok(Decl::Named(
        thread_name(number),
        Kind::Thread {
            policy,
            start,
            body,
        },
    ))
}

// What all threads share.
fn shared(alloc: Global) -> Result<Vec<Decl>, AllocError>
    ensures { IfOk result (λ decls. decls.items ≡ shared) }
{
    let inherit = Kind::Mutex {
        protocol: Protocol::Inherit,
        recursive: false,
    };
    let protect = Kind::Mutex {
        protocol: Protocol::Protect(prio(255)),
        recursive: false,
    };
    let queue = Kind::Queue {
        depth: 8,
        max_len: 64,
        nonblock: true,
    };
    Ok(vec![in alloc;
        Decl::Named(name(b"m0"), inherit),
        Decl::Named(name(b"m1"), protect),
        Decl::Named(name(b"s0"), Kind::Sem { value: 0 }),
        Decl::Named(name(b"q0"), queue),
    ]?)
}

/// The script of a number of at most 10^18: two mutexes, a semaphore, a queue, and 1 to 64 threads that run, do a deed with one of these, and
/// sleep, forever. The numbers in it are drawn from the number, by a generator that docs/COMMANDS.md gives.
pub fn make(alloc: Global, number: u64) -> Result<Script, AllocError>
    requires { number ≤ 10 ^ 18 }
    ensures { IfOk result (λ script. script ≡ script_of number) }
{
    let mut draws = Draws::new(number);
    let quantum = 1 + draws.draw(8);
    let count = 1 + (number % 64) as u8;
    let mut decls = shared(alloc)?;
    for k in 0..count {
        decls.push(thread(alloc, k, &mut draws)?)?;
    }
    Ok(Script {
        version: 1,
        quantum,
        decls: Decls::new(decls),
    })
}
