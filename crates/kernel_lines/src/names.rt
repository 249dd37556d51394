//! The names of threads and bodies, as words.
ghost use Rattle.std.specs.Prelude.{◌≡◌, ◌≤◌, length};
ghost use Rattle.words_script.specs.declared.name_kind.NameKind.TheVariants as kind;
ghost use Rattle.script_writer.specs.Names.{name_of};
ghost use Rattle.rules_facts.specs.Spelled.{body_name, thread_name};

use crate::declared::Declared;
use rules_machine::BodyOf;
use script_writer::name_of;
use words_numbers::{ObjId, Tid};
use words_script::NameKind;

/// The name of a thread.
pub fn thread_name<'a>(decls: &'a Declared<'_>, t: Tid) -> &'a [u8]
    ensures name { result.now ≡ thread_name decls.now t }
    ensures short { length result.now ≤ 32 }
{
    decls.thread(t)
}

/// The name of an object of this kind.
pub fn object_name<'a>(decls: &'a Declared<'_>, of: NameKind, k: ObjId) -> &'a [u8]
    ensures name { result.now ≡ name_of decls.now of k }
    ensures short { length result.now ≤ 32 }
{
    name_of(decls.items(), of, k.get())
}

/// The name of the thread or the handler whose body it is.
pub fn body_name<'a>(decls: &'a Declared<'_>, body: BodyOf) -> &'a [u8]
    ensures name { result.now ≡ body_name decls.now body }
    ensures short { length result.now ≤ 32 }
{
    match body {
        BodyOf::Thread(t) => thread_name(decls, t),
        BodyOf::Cleanup(u) => object_name(decls, NameKind::Cleanup, u),
        BodyOf::Handler(h) => object_name(decls, NameKind::Handler, h),
    }
}
