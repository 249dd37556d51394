//! Whether a trace is that of a script's run.
ghost use Rattle.std.specs.Prelude.{◌≡◌, ◌≤◌, ◌<◌, ◌+◌, ◌^◌, length, option_map, IfOk};
ghost use Rattle.script_table.specs.Table.{patterns};
ghost use Rattle.script_table.specs.Read.{read};
ghost use Rattle.rules_machine.specs.Machine.{trace};
ghost use Rattle.rules_machine.specs.WellFormed.{IsWellFormed};
ghost use Rattle.rules_flat_code.specs.Runnable.{IsRunnable};
ghost use Rattle.tool_check.specs.Comparison.{comparison};
ghost use Rattle.tool_check.specs.Divided.{divided};
ghost use Rattle.tool_answers.specs.Answer.{GivesAnswer, compared_answer, divided_answer, trace_answer};

use crate::refused::refuse;
use crate::runs::print_run;
use parts_io::Sink;
use parts_steps::Steps;
use script_reader::{Script, read_script};
use std::alloc::{AllocError, Global};
use std::marker::Brand;
use std::sync::ledger::Ledger;
use tool_answers::{SCRIPT_LIMIT, Status, put_text};
use tool_check::{Difference, KnownRoom, Room, compare, divide};
use words_numbers::Tick;

// Runs a script into a room of its own, which is longer than the trace by the longest line and a byte, and compares. The room holds each line
// that can be the first to differ. From the open kernel on, nothing takes memory.
fn compare_in<R: Room, L: Ledger>(
    alloc: Global,
    script: &Script,
    horizon: Tick,
    have: &[u8],
    room: u64,
    steps: &mut Steps<L>,
) -> Result<Option<Difference>, AllocError>
    requires runnable { IsRunnable script.now }
    requires well_formed { IsWellFormed script.now }
    requires limit { horizon ≤ 10 ^ 18 }
    requires small { room < 2 ^ 40 }
    requires enough { length have.now + 257 ≤ room }
    requires known { room ≡ R.room }
    ensures { IfOk result (λ told. option_map (λ text. text.items) told ≡ comparison have.now (trace script.now horizon)) }
{
    let mut kept = KnownRoom::<R>::open(alloc, room)?;
    print_run(alloc, script, horizon, &mut kept, steps)?;
    Ok(compare(have, kept.text()))
}

// What differs between a trace and that of a script's run, if anything does.
fn difference_of<L: Ledger>(
    alloc: Global,
    script: &Script,
    horizon: Tick,
    have: &[u8],
    steps: &mut Steps<L>,
) -> Result<Option<Difference>, AllocError>
    requires runnable { IsRunnable script.now }
    requires well_formed { IsWellFormed script.now }
    requires limit { horizon ≤ 10 ^ 18 }
    requires short { length have.now ≤ 67_108_864 }
    ensures { IfOk result (λ told. option_map (λ text. text.items) told ≡ comparison have.now (trace script.now horizon)) }
{
    let room = have.len() as u64 + 257;
    compare_in::<Brand, L>(alloc, script, horizon, have, room, steps)
}

// Tells whether a trace is that of a script's run.
fn check_script<K: Sink, L: Ledger>(
    alloc: Global,
    script: &Script,
    horizon: Tick,
    have: &[u8],
    sink: &mut K,
    steps: &mut Steps<L>,
) -> Status
    requires runnable { IsRunnable script.now }
    requires well_formed { IsWellFormed script.now }
    requires limit { horizon ≤ 10 ^ 18 }
    requires short { length have.now ≤ 67_108_864 }
    ensures { GivesAnswer K.text K.faults (trace_answer (comparison have.now (trace script.now horizon))) result sink.old sink.new }
{
    match difference_of(alloc, script, horizon, have, steps) {
        Ok(None) => put_text(sink, b"same\n", Status::Done),
        Ok(Some(told)) => put_text(sink, told.as_slice(), Status::Differs),
        Err(_) => Status::OutOfMemory,
    }
}

// The same of the bytes of a script.
fn check_head<K: Sink, L: Ledger>(
    alloc: Global,
    head: &[u8],
    horizon: Tick,
    have: &[u8],
    sink: &mut K,
    steps: &mut Steps<L>,
) -> Status
    requires head { length head.now ≤ 1_048_576 }
    requires limit { horizon ≤ 10 ^ 18 }
    requires short { length have.now ≤ 67_108_864 }
    ensures { GivesAnswer K.text K.faults (compared_answer horizon have.now (read patterns head.now)) result sink.old sink.new }
{
    match read_script(alloc, head) {
        Ok(script) => check_script(alloc, &script, horizon, have, sink, steps),
        Err(end) => refuse(&end, sink),
    }
}

/// Splits a text into a script and a trace, and tells whether the trace is that of the script's run.
pub fn check_text<K: Sink, L: Ledger>(
    alloc: Global,
    text: &[u8],
    horizon: Tick,
    sink: &mut K,
    steps: &mut Steps<L>,
) -> Status
    requires short { length text.now ≤ 67_108_864 }
    requires limit { horizon ≤ 10 ^ 18 }
    ensures { GivesAnswer K.text K.faults (divided_answer horizon (divided text.now)) result sink.old sink.new }
{
    let Some((head, have)) = divide(text) else {
        return put_text(sink, b"no trace\n", Status::NoTrace);
    };
    if head.len() as u64 > SCRIPT_LIMIT {
        return put_text(sink, b"too long\n", Status::TooLong);
    }
    check_head(alloc, head, horizon, have, sink, steps)
}
