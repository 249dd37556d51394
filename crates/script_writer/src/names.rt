//! The names of threads and objects.
ghost use Rattle.std.specs.Prelude.{◌≡◌, ◌≤◌, length};
ghost use Rattle.script_writer.specs.Names.{name_of, names_of};
ghost use Rattle.words_script.specs.declared.name_kind.NameKind.TheVariants as name_kind;

use words_numbers::{ObjId, Tid};
use words_script::{Decl, NameKind};

/// The name of what is the k-th of its kind among the declarations, from 0 on; nothing where there are fewer.
pub fn name_of(decls: &[Decl], of: NameKind, k: u16) -> &[u8]
    ensures name { result.now ≡ name_of decls.now of k }
    ensures short { length result.now ≤ 32 }
{
    let mut left = k;
    for decl in decls {
        if let Decl::Named(name, kind) = decl {
            if kind.name_kind().is_same(of) {
                if left == 0 {
                    return name.bytes();
                }
                left -= 1;
            }
        }
    }
    b"".as_slice()
}

/// How many names of a kind are declared.
pub fn name_count(decls: &[Decl], of: NameKind) -> usize
    ensures { result ≡ length (names_of of decls.now) }
{
    let mut count = 0;
    for decl in decls {
        if let Decl::Named(_, kind) = decl {
            if kind.name_kind().is_same(of) {
                count += 1;
            }
        }
    }
    count
}

/// The name of a thread.
pub(crate) fn thread(decls: &[Decl], t: Tid) -> &[u8]
    ensures name { result.now ≡ name_of decls.now name_kind.Thread t }
    ensures short { length result.now ≤ 32 }
{
    name_of(decls, NameKind::Thread, t.get())
}

/// The name of an object of this kind.
pub(crate) fn object(decls: &[Decl], of: NameKind, k: ObjId) -> &[u8]
    ensures name { result.now ≡ name_of decls.now of k }
    ensures short { length result.now ≤ 32 }
{
    name_of(decls, of, k.get())
}
