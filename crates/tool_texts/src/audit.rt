//! Whether a trace keeps the budgets of its servers.
ghost use Rattle.std.specs.Prelude.{◌≡◌, ◌≤◌, List, length};
ghost use Rattle.tool_audit.specs.Breach.{first_breach};
ghost use Rattle.tool_audit.specs.Head.{read_head};
ghost use Rattle.tool_audit.specs.Watch.{begun};
ghost use Rattle.tool_audit.specs.declared.server.NamedServer.{NamedServer};
ghost use Rattle.tool_check.specs.Divided.{divided};
ghost use Rattle.tool_answers.specs.Answer.{GivesAnswer, audit_answer, audited_answer, breach_answer};

use parts_io::Sink;
use std::alloc::Global;
use tool_answers::{Status, breach_line, put_text, refused_head_line};
use tool_audit::{Audit, AuditEnd};
use tool_check::divide;

// Tells the first breach of a trace. It takes no memory.
fn tell_breach<K: Sink>(mut audit: Audit, trace: &[u8], sink: &mut K) -> Status
    requires { length trace.now ≤ 67_108_864 }
    ensures gives { (servers : List NamedServer) → audit ≡ begun servers
        → GivesAnswer K.text K.faults (breach_answer (first_breach servers trace.now)) result sink.old sink.new }
    ensures memory { result ≡ Status.OutOfMemory → ⊥ }
{
    match audit.first_breach(trace) {
        None => put_text(sink, b"budgets hold\n", Status::Done),
        Some(breach) => {
            let message = breach_line(breach);
            put_text(sink, message.as_slice(), Status::Breach)
        }
    }
}

// Reads the servers of a head, and audits a trace for them.
fn audit_trace<K: Sink>(alloc: Global, head: &[u8], trace: &[u8], sink: &mut K) -> Status
    requires head { length head.now ≤ 67_108_864 }
    requires short { length trace.now ≤ 67_108_864 }
    ensures { GivesAnswer K.text K.faults (audited_answer (read_head head.now) trace.now) result sink.old sink.new }
{
    match Audit::open(alloc, head) {
        Ok(audit) => tell_breach(audit, trace, sink),
        Err(AuditEnd::Fault(line, kind)) => {
            let message = refused_head_line(line, kind);
            put_text(sink, message.as_slice(), Status::Refused)
        }
        Err(AuditEnd::OutOfMemory) => Status::OutOfMemory,
    }
}

/// Splits a text into a head of servers and a trace, and tells whether the trace keeps their budgets. Once the head is read, nothing takes
/// memory.
pub fn audit_text<K: Sink>(alloc: Global, text: &[u8], sink: &mut K) -> Status
    requires { length text.now ≤ 67_108_864 }
    ensures { GivesAnswer K.text K.faults (audit_answer (divided text.now)) result sink.old sink.new }
{
    let Some((head, trace)) = divide(text) else {
        return put_text(sink, b"no trace\n", Status::NoTrace);
    };
    audit_trace(alloc, head, trace, sink)
}
