//! How long the canonical text of a script is: the lines are made one after another, and none is kept.
ghost use Rattle.std.specs.Prelude.{◌≡◌, ◌≤◌, ◌+◌, ◌-◌, ◌^◌, ◌∷◌, ◌++◌, [], length, min};
ghost use Rattle.words_script.specs.Tree.{block_of};
ghost use Rattle.script_writer.specs.Firsts.{capped_len};
ghost use Rattle.script_writer.specs.Canon.{block_lines, kind_lines, decl_lines, decls_lines, version_lines, text_of, canon};

use crate::body::{block_in, closing_line, end_line, step_line};
use crate::decl::{action_line, body_in, named_line};
use crate::line::LineText;
use crate::write::{quantum_line, version_line};
use words_script::{Body, Decl, Kind, Script, Step};

fn line_len(line: &LineText) -> u64
    ensures { result ≡ capped_len line.now.items }
{
    line.len() as u64
}

// The length of two texts together.
fn sum(first: u64, rest: u64) -> u64
    ensures { result ≡ min (first + rest) (2 ^ 64 - 1) }
{
    first.saturating_add(rest)
}

#[cycle(lengths)]
fn block_len(decls: &[Decl], opening: &LineText, body: &Body, closing: &LineText) -> u64
    ensures { result ≡ capped_len (opening.now.items ++ (text_of (block_lines decls.now body.now) ++ closing.now.items)) }
{
    let inner = body_len(decls, body);
    sum(line_len(opening), sum(inner, line_len(closing)))
}

#[cycle(lengths)]
fn step_len(decls: &[Decl], step: &Step) -> u64
    ensures { result ≡ capped_len (text_of (block_lines decls.now (block_of (step.now ∷ [])))) }
{
    let opening = step_line(decls, step);
    match block_in(step) {
        None => line_len(&opening),
        Some(body) => block_len(decls, &opening, body, &closing_line(step)),
    }
}

#[cycle(lengths)]
fn body_len(decls: &[Decl], body: &Body) -> u64
    ensures { result ≡ capped_len (text_of (block_lines decls.now body.now)) }
{
    let mut len = 0;
    for step in body.steps() {
        len = sum(len, step_len(decls, step));
    }
    len
}

fn named_len(decls: &[Decl], name: &[u8], kind: &Kind) -> u64
    requires { length name.now ≤ 32 }
    ensures { result ≡ capped_len (text_of (kind_lines decls.now name.now kind.now)) }
{
    let opening = named_line(name, kind);
    match body_in(kind) {
        None => line_len(&opening),
        Some(body) => block_len(decls, &opening, body, &end_line()),
    }
}

fn decl_len(decls: &[Decl], decl: &Decl) -> u64
    ensures { result ≡ capped_len (text_of (decl_lines decls.now decl.now)) }
{
    match decl {
        Decl::Named(name, kind) => named_len(decls, name.bytes(), kind),
        Decl::Action(sig, handler) => line_len(&action_line(decls, *sig, *handler)),
    }
}

fn decls_len(decls: &[Decl]) -> u64
    ensures { result ≡ capped_len (text_of (decls_lines decls.now decls.now)) }
{
    let mut len = 0;
    for decl in decls {
        len = sum(len, decl_len(decls, decl));
    }
    len
}

fn version_len(version: u8) -> u64
    ensures { result ≡ capped_len (text_of (version_lines version)) }
{
    if version == 2 {
        line_len(&version_line())
    } else {
        0
    }
}

/// How many bytes the canonical text of a script has. Where they were 2^64 or more, it would be 2^64 - 1. It takes no memory.
pub fn canon_len(script: &Script) -> u64
    ensures { result ≡ min (length (canon script.now)) (2 ^ 64 - 1) }
{
    let body = sum(
        line_len(&quantum_line(script.quantum)),
        decls_len(script.decls.items()),
    );
    sum(version_len(script.version), body)
}
