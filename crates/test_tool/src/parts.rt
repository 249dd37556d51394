//! Numbers, names and the kernel: public calls that no other test makes.
ghost use Rattle.std.specs.Prelude.{◌≡◌};

use kernel_leaps::{Kernel, RunEnd};
use parts_io::MemSink;
use parts_steps::Steps;
use parts_tracer::Tracer;
use script_reader::{Name, read_script};
use std::alloc::Global;
use std::marker::Brand;
use std::sync::ledger::{Blank, Ledger};
use std::test::Fail;
use words_numbers::{Item, ObjId, Params, Prio, Res, SigCode, SigSet, Tick, Tid};

const TWO_THREADS: &[u8] = b"thread a fifo 5 at 0\nrun 3\nend\nthread b fifo 9 at 2\nend\n";

#[test]
fn numbers_keep_their_ranges(rt: HostRuntime) -> Result<(), Fail> {
    assert_eq!(rt;
        Tick::try_new(5).and_then(|t| t.after(3)).map(|t| t.get()),
        Some(8)
    );
    assert!(rt; Tick::try_new(Tick::LAST + 1).is_none());
    assert_eq!(rt; Prio::try_new(255).map(|p| p.get()), Some(255));
    assert_eq!(rt; Tid::try_new(255).map(|t| t.get()), Some(255));
    assert!(rt; ObjId::try_new(256).is_none());
    Ok(())
}

#[test]
fn items_have_numbers(rt: HostRuntime) -> Result<(), Fail> {
    let number = Item::Timer(ObjId::default()).number();
    assert_eq!(rt; number.number, 768);
    assert_eq!(rt; Item::of(number), Some(Item::Timer(ObjId::default())));
    Ok(())
}

#[test]
fn signals_stand_in_sets(rt: HostRuntime) -> Result<(), Fail> {
    let set = SigSet::new(0).insert(3).insert(31).remove(3);
    assert_eq!(rt; (set.contains(3), set.contains(31)), (false, true));
    assert_eq!(rt; set.lowest(), Some(31));
    assert_eq!(rt; set.bits(), 1 << 31);
    Ok(())
}

#[test]
fn words_and_parameters(rt: HostRuntime) -> Result<(), Fail> {
    assert_eq!(rt; Res::Timedout.text(), "ETIMEDOUT");
    assert_eq!(rt; SigCode::Mesgq.text(), "MESGQ");
    assert!(rt; Name::try_new(b"a_1").is_some());
    let (Some(high), Some(low)) = (Prio::try_new(8), Prio::try_new(2)) else {
        assert!(rt; false);
        return Ok(());
    };
    assert!(rt; Params::try_new(high, low, 10, 3, 4).is_some());
    assert!(rt; Params::try_new(low, high, 10, 3, 4).is_none());
    Ok(())
}

// Runs the two threads to tick 3, and answers the instant, the thread of the last tick and how the run ended.
fn run_to_three<L: Ledger>(
    alloc: Global,
    sink: &mut MemSink,
    blank: Blank,
) -> Result<(u64, Option<Tid>, RunEnd), Fail>
    requires name { blank.name ≡ L.name }
    requires parts { blank.parts ≡ L.parts }
    requires one { L.parts ≡ 1 }
{
    let Ok(script) = read_script(alloc, TWO_THREADS) else {
        return Ok((0, None, RunEnd::Stopped));
    };
    let mut kernel = Kernel::open(alloc, &script)?;
    let mut out = Tracer::new(sink);
    let mut steps = Steps::<L>::new(blank);
    let end = kernel.run_until(
        Tick::default().after(3).unwrap_or(Tick::default()),
        &mut out,
        &mut steps,
    );
    Ok((kernel.now().get(), kernel.running(), end))
}

#[test]
fn a_kernel_runs_its_head(rt: HostRuntime) -> Result<(), Fail> {
    let alloc = rt.alloc();
    let mut sink = MemSink::open(alloc, 1000, Vec::new(alloc))?;
    let (now, running, end) = run_to_three::<Brand>(alloc, &mut sink, Blank::new(1))?;
    assert_eq!(rt; now, 3);
    assert_eq!(rt; running, Tid::try_new(1));
    assert_eq!(rt; end, RunEnd::Ended);
    Ok(())
}
