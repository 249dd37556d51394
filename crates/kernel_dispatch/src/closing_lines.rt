//! The closing lines.
ghost use Rattle.std.specs.Prelude.{◌<◌, length};
ghost use Rattle.parts_tracer.specs.Prints.{Prints};
ghost use Rattle.words_trace.specs.Text.{line, report_line};
ghost use Rattle.words_trace.specs.declared.event.Event.TheVariants as event;
ghost use Rattle.rules_machine.specs.Machine.{closing, report_of, reports};
ghost use Rattle.rules_machine.specs.Threads.{thread_at};

use kernel_state::Parts;
use parts_io::Sink;
use parts_tracer::Tracer;
use words_numbers::Tid;
use words_trace::Event;

fn put_end<K: Sink>(p: &Parts, out: &mut Tracer<'_, K>)
    ensures { Prints K.text K.faults out.old out.new (line p.now.names p.now.machine.now event.End) }
{
    out.put(p.instant(), &Event::End, p.names());
}

fn put_report<K: Sink>(p: &Parts, t: Tid, out: &mut Tracer<'_, K>)
    requires { t < length p.now.names }
    ensures { Prints K.text K.faults out.old out.new (report_line p.now.names t (report_of (thread_at p.now.machine t))) }
{
    out.put_report(t, &p.thread(t).report(), p.names());
}

fn put_reports<K: Sink>(p: &Parts, out: &mut Tracer<'_, K>)
    ensures { Prints K.text K.faults out.old out.new (reports p.now.names 0 p.now.machine.threads) }
{
    for number in 0..p.count() {
        let t = p.tid(number);
        put_report(p, t, out);
    }
}

/// Prints the closing lines.
pub fn report<K: Sink>(p: &Parts, out: &mut Tracer<'_, K>)
    ensures { Prints K.text K.faults out.old out.new (closing p.now.names p.now.machine) }
{
    put_end(p, out);
    put_reports(p, out);
}
