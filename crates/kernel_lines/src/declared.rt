//! The declarations of a script, with the names of its threads at hand.
ghost use Rattle.std.specs.Prelude.{◌≡◌, ◌≤◌, length};
ghost use Rattle.words_script.specs.declared.name_kind.NameKind.TheVariants as kind;
ghost use Rattle.script_writer.specs.Names.{name_of, names_of};

use kernel_state::Parts;
use script_writer::name_of;
use std::marker::Model;
use words_numbers::Tid;
use words_script::{Decl, NameKind};

/// The declarations of a script. The names of its threads are those that its kernel keeps, so that none is looked for. Contracts see the
/// declarations.
#[derive(Drop)]
pub struct Declared<'a> {
    decls: &'a [Decl],
    parts: &'a Parts,
}

impl<'a> Model for Declared<'a> {
    ghost use Rattle.std.specs.Prelude.{◌≡◌, List};
    ghost use Rattle.words_script.specs.declared.decl.Decl.{Decl};
    ghost use Rattle.words_script.specs.declared.name_kind.NameKind.TheVariants as kind;
    ghost use Rattle.script_writer.specs.Names.{names_of};
    ghost use Rattle.std.specs.Coded.{codes};
    ghost use Rattle.words_script.specs.contracts.body.Body as body;

    ghost Value = { List Decl };

    ghost coded = { Prim.hlevel (codes, body.the_row.coded) };

    ghost view = { λ d. d.decls.now };

    ghost invariant = { λ d. d.parts.now.names ≡ names_of kind.Thread d.decls.now };
}

impl<'a> Declared<'a> {
    /// The declarations of the script that a kernel runs.
    pub fn of(decls: &'a [Decl], parts: &'a Parts) -> Declared<'a>
        requires { parts.now.names ≡ names_of kind.Thread decls.now }
        ensures { result ≡ decls.now }
    {
        Declared { decls, parts }
    }

    /// All of them.
    pub fn items(&self) -> &[Decl]
        ensures { result.now ≡ self.now }
    {
        self.decls
    }

    /// The name of a thread; nothing where there are fewer.
    pub(crate) fn thread(&self, t: Tid) -> &[u8]
        ensures name { result.now ≡ name_of self.now kind.Thread t }
        ensures short { length result.now ≤ 32 }
    {
        if t.get() >= self.parts.count() {
            return name_of(self.decls, NameKind::Thread, t.get());
        }
        self.parts.name(t)
    }
}
