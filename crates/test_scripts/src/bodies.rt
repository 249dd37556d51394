//! Small bodies and their units in order.
ghost use Rattle.std.specs.Prelude.{◌≡◌, ◌≤◌, [], ◌∷◌, IfOk};
ghost use Rattle.words_script.specs.Block.{Nothing, Running};
ghost use Rattle.words_script.specs.Tree.{step_count};
ghost use Rattle.rules_bodies.specs.Flat.{nesting};
ghost use Rattle.rules_bodies.specs.Stands.{IsBody, IsPlaced};

use script_code::{CallPlace, Code, Cursor, Fetched};
use std::alloc::{AllocError, Global};
use std::test::Fail;
use words_numbers::{ObjId, Prio, Res, Tid};
use words_script::{Body, Call, Decl, Decls, Kind, Name, Policy, Script, Step};

// The code of a script whose declarations are a thread, a handler and a cleanup handler with these bodies.
fn code_of(alloc: Global, thread: Body, handler: Body, cleanup: Body) -> Result<Code, AllocError>
    requires short { (step_count thread ≤ 65536) × (step_count handler ≤ 65536) × (step_count cleanup ≤ 65536) }
    requires nested { (nesting thread ≤ 15) × (nesting handler ≤ 15) × (nesting cleanup ≤ 15) }
    ensures threads { IfOk result (λ code. code.threads ≡ 0 ∷ []) }
    ensures handlers { IfOk result (λ code. code.handlers ≡ 1 ∷ []) }
    ensures cleanups { IfOk result (λ code. code.cleanups ≡ 2 ∷ []) }
    ensures bodies { IfOk result (λ code. IsBody code 0 thread × IsBody code 1 handler × IsBody code 2 cleanup) }
{
    let policy = Policy::Fifo(Prio::try_new(5).unwrap());
    let start = Some(0);
    let body = thread;
    let thread = Kind::Thread {
        policy,
        start,
        body,
    };
    let decls = Decls::new(vec![in alloc;
        Decl::Named(Name::try_new(b"a").unwrap(), thread),
        Decl::Named(
            Name::try_new(b"h").unwrap(),
            Kind::Handler { body: handler }
        ),
        Decl::Named(
            Name::try_new(b"u").unwrap(),
            Kind::Cleanup { body: cleanup }
        ),
    ]?);
    let (version, quantum) = (1, 10);
    let script = Script {
        version,
        quantum,
        decls,
    };
    script_flattener::open(alloc, &script)
}

// What a unit is: its word, and the ticks that it runs or whether it runs a cleanup handler.
fn said(code: &Code, unit: &Fetched) -> (&'static str, u64) {
    match unit {
        Fetched::Run(ticks) => ("run", *ticks),
        Fetched::Make(place) => {
            let (word, _) = said_of_call(&code.call(place));
            (word, number_in_table(code, place))
        }
        Fetched::Jump => ("jump", 0),
        Fetched::Finish => ("finish", 0),
        Fetched::Short(short) => said_of_call(&short.call()),
    }
}

// The number of the call at a place, as the table of its body has it.
fn number_in_table(code: &Code, place: &CallPlace) -> u64 {
    match code.call_in_table(place) {
        Some(call) => said_of_call(call).1,
        None => u64::MAX,
    }
}

fn said_of_call(call: &Call) -> (&'static str, u64) {
    match call {
        Call::Yield => ("yield", 0),
        Call::Lock(k) => ("lock", u64::from(k.get())),
        Call::Unlock(k) => ("unlock", u64::from(k.get())),
        Call::SemPost(k) => ("post", u64::from(k.get())),
        Call::Nanosleep(ticks) => ("sleep", *ticks),
        Call::Push(_) => ("push", 0),
        Call::Pop(run) => ("pop", u64::from(*run)),
        _ => ("another call", 0),
    }
}

// What units are said to be, and then the register.
type Said = (Vec<(&'static str, u64)>, u64);

// The first units from a cursor on, so many, where each call leaves that answer and that value, and then the register.
fn units(
    alloc: Global,
    code: &Code,
    from: Cursor,
    answer: Res,
    value: u64,
    count: u8,
) -> Result<Said, AllocError>
    requires { IsPlaced code.now from }
{
    let mut cursor = from;
    let mut units = Vec::new(alloc);
    for _ in 0..count {
        let unit = code.fetch(&mut cursor);
        units.push(said(code, &unit))?;
        cursor.result = answer;
        cursor.value = value;
    }
    Ok((units, cursor.register))
}

fn nothing(alloc: Global) -> Body
    ensures { result ≡ Nothing }
{
    Body::new(Vec::new(alloc))
}

fn running(alloc: Global, ticks: u64) -> Result<Body, AllocError>
    ensures { IfOk result (λ body. body ≡ Running ticks Nothing) }
{
    Ok(Body::new(vec![in alloc; Step::Run(ticks)]?))
}

// The first units of the body of a thread.
fn units_of_thread(alloc: Global, thread: Body, answer: Res, count: u8) -> Result<Said, AllocError>
    requires { (step_count thread ≤ 65536) × (nesting thread ≤ 15) }
{
    let code = code_of(alloc, thread, nothing(alloc), nothing(alloc))?;
    let start = code.start(code.thread_body(Tid::default()), 0);
    units(alloc, &code, start, answer, 0, count)
}

// The first units of the body of a handler of a signal with the value 5.
fn units_of_handler(alloc: Global, handler: Body, count: u8) -> Result<Said, AllocError>
    requires { (step_count handler ≤ 65536) × (nesting handler ≤ 15) }
{
    let code = code_of(alloc, nothing(alloc), handler, nothing(alloc))?;
    let start = code.start(code.handler_body(ObjId::default()), 5);
    units(alloc, &code, start, Res::Zero, 0, count)
}

// The first units of the body of a cleanup handler, where each call leaves that value.
fn units_of_cleanup(alloc: Global, cleanup: Body, value: u64, count: u8) -> Result<Said, AllocError>
    requires { (step_count cleanup ≤ 65536) × (nesting cleanup ≤ 15) }
{
    let code = code_of(alloc, nothing(alloc), nothing(alloc), cleanup)?;
    let start = code.start(code.cleanup_body(ObjId::default()), 0);
    units(alloc, &code, start, Res::Zero, value, count)
}

// set 7; loop 2; run 1; end; yield; if 0; run 2; end; unless 0; run 9; end
fn looping_and_testing(alloc: Global) -> Result<Body, AllocError>
    ensures { IfOk result (λ body. (step_count body ≤ 65536) × (nesting body ≤ 15)) }
{
    let (once, same, other) = (running(alloc, 1)?, running(alloc, 2)?, running(alloc, 9)?);
    Ok(Body::new(vec![in alloc;
        Step::Set(7),
        Step::Loop {
            times: Some(2),
            body: once
        },
        Step::Make(Call::Yield),
        Step::Test {
            res: Res::Zero,
            equal: true,
            body: same
        },
        Step::Test {
            res: Res::Zero,
            equal: false,
            body: other
        },
    ]?))
}

static UNITS: [(&str, u64); 7] = [
    ("run", 1),
    ("jump", 0),
    ("run", 1),
    ("yield", 0),
    ("run", 2),
    ("finish", 0),
    ("finish", 0),
];

#[test]
fn the_body_of_a_thread(rt: HostRuntime) -> Result<(), Fail> {
    let thread = looping_and_testing(rt.alloc())?;
    let (units, register) = units_of_thread(rt.alloc(), thread, Res::Zero, 7)?;
    assert_eq!(rt; units.as_slice(), UNITS.as_slice());
    assert_eq!(rt; register, 7);
    Ok(())
}

static OTHER_UNITS: [(&str, u64); 6] = [
    ("run", 1),
    ("jump", 0),
    ("run", 1),
    ("yield", 0),
    ("run", 9),
    ("finish", 0),
];

// After a call that timed out the other test holds.
#[test]
fn the_same_body_after_a_call_that_times_out(rt: HostRuntime) -> Result<(), Fail> {
    let thread = looping_and_testing(rt.alloc())?;
    let (units, _) = units_of_thread(rt.alloc(), thread, Res::Timedout, 6)?;
    assert_eq!(rt; units.as_slice(), OTHER_UNITS.as_slice());
    Ok(())
}

// forever; add 20; end, with the value of its signal, 5
#[test]
fn the_body_of_a_handler(rt: HostRuntime) -> Result<(), Fail> {
    let alloc = rt.alloc();
    let body = Body::new(vec![in alloc; Step::Add(20)]?);
    let handler = Body::new(vec![in alloc; Step::Loop { times: None, body }]?);
    let (units, register) = units_of_handler(alloc, handler, 3)?;
    assert_eq!(rt;
        units.as_slice(),
        [("jump", 0), ("jump", 0), ("jump", 0)].as_slice()
    );
    assert_eq!(rt; register, 65);
    Ok(())
}

// The first unit of a handler's body, where its operations are looked up once, and the register behind it.
fn first_looked_up(alloc: Global, handler: Body) -> Result<((&'static str, u64), u64), AllocError>
    requires { (step_count handler ≤ 65536) × (nesting handler ≤ 15) }
{
    let code = code_of(alloc, nothing(alloc), handler, nothing(alloc))?;
    let number = code.handler_body(ObjId::default());
    let mut cursor = code.start(number, 5);
    let unit = code.units(number).fetch(&mut cursor);
    Ok((said(&code, &unit), cursor.register))
}

// add 20; run 3, with the value of its signal, 5
#[test]
fn the_units_of_a_body(rt: HostRuntime) -> Result<(), Fail> {
    let alloc = rt.alloc();
    let handler = Body::new(vec![in alloc; Step::Add(20), Step::Run(3)]?);
    assert_eq!(rt; first_looked_up(alloc, handler)?, (("run", 3), 25));
    Ok(())
}

// lock, unlock, post, sleep, and a call that is told by its place
fn calling(alloc: Global) -> Result<Body, AllocError>
    ensures { IfOk result (λ body. (step_count body ≤ 65536) × (nesting body ≤ 15)) }
{
    let mutex = ObjId::try_new(3).unwrap();
    let semaphore = ObjId::try_new(2).unwrap();
    Ok(Body::new(vec![in alloc;
        Step::Make(Call::Lock(mutex)),
        Step::Make(Call::Unlock(mutex)),
        Step::Make(Call::SemPost(semaphore)),
        Step::Make(Call::Nanosleep(7)),
        Step::Make(Call::Testcancel),
    ]?))
}

static CALLS: [(&str, u64); 6] = [
    ("lock", 3),
    ("unlock", 3),
    ("post", 2),
    ("sleep", 7),
    ("another call", 0),
    ("finish", 0),
];

#[test]
fn the_calls_that_are_told_by_themselves(rt: HostRuntime) -> Result<(), Fail> {
    let thread = calling(rt.alloc())?;
    let (units, _) = units_of_thread(rt.alloc(), thread, Res::Zero, 6)?;
    assert_eq!(rt; units.as_slice(), CALLS.as_slice());
    Ok(())
}

// loop 1; end; push u; take; run 3; pop 1; loop 3; end
fn guarding(alloc: Global) -> Result<Body, AllocError>
    ensures { IfOk result (λ body. (step_count body ≤ 65536) × (nesting body ≤ 15)) }
{
    let guarded = Body::new(vec![in alloc; Step::Take, Step::Run(3)]?);
    Ok(Body::new(vec![in alloc;
        Step::Loop {
            times: Some(1),
            body: nothing(alloc)
        },
        Step::Guard {
            cleanup: ObjId::default(),
            body: guarded,
            run: true
        },
        Step::Loop {
            times: Some(3),
            body: nothing(alloc)
        },
    ]?))
}

static GUARDED: [(&str, u64); 6] = [
    ("push", 0),
    ("run", 3),
    ("pop", 1),
    ("jump", 0),
    ("jump", 0),
    ("finish", 0),
];

// The register after a call whose value is above its limit.
#[test]
fn the_body_of_a_cleanup_handler(rt: HostRuntime) -> Result<(), Fail> {
    let cleanup = guarding(rt.alloc())?;
    let (units, register) = units_of_cleanup(rt.alloc(), cleanup, 3_000_000_000_000_000_000, 6)?;
    assert_eq!(rt; units.as_slice(), GUARDED.as_slice());
    assert_eq!(rt; register, 2_000_000_000_000_000_000);
    Ok(())
}
