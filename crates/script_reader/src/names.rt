//! Phase 2: names in order of declaration.
pub(crate) mod counts;
pub(crate) mod declarations;

ghost use Rattle.std.specs.Prelude.{◌≡◌, ◌==◌, [], IfOk};
ghost use Rattle.std.specs.Option.{option_map};
ghost use Rattle.script_table.specs.Names.{entry_of, with_name, duplicate, used};
ghost use Rattle.script_table.specs.Operands.{number_of_kind};
ghost use Rattle.script_reader.specs.NameMap.{entry_named};

use counts::Counts;
use indexmap::IndexMap;
use script_table::{FaultKind, NameKind};
use std::alloc::{AllocFailed, Global};
use std::marker::Model;

/// How a name was declared: as what, on which line, and as which of its kind.
#[derive(Clone, Copy)]
pub(crate) struct Declaration {
    pub kind: NameKind,
    pub line: u32,
    pub number: u64,
}

/// The names that lines declare, in order of declaration. Contracts see the list of them.
#[derive(Drop)]
pub(crate) struct NameIndex<'a> {
    index: IndexMap<&'a [u8], Declaration>,
    counts: Counts,
}

impl<'a> Model for NameIndex<'a> {
    ghost use Rattle.std.specs.Prelude.{◌≡◌, List, map};
    ghost use Rattle.script_table.specs.Names.{Entry, counts_from, no_counts};
    ghost use Rattle.script_reader.specs.NameMap.{entry_of_pair};

    ghost Value = { List Entry };

    ghost view = { λ n. map entry_of_pair n.index.entries };

    ghost invariant = { λ n. n.counts ≡ counts_from no_counts (map entry_of_pair n.index.entries) };
}

impl<'a> NameIndex<'a> {
    pub(crate) fn new(alloc: Global) -> NameIndex<'a>
        ensures { result ≡ [] }
    {
        NameIndex {
            index: IndexMap::new(alloc),
            counts: Counts::new(),
        }
    }

    // The declaration of a name.
    fn get(&self, name: &[u8]) -> Option<Declaration>
        ensures { option_map (entry_named name.now) result ≡ entry_of self.now name.now }
    {
        self.index.get(name).copied()
    }

    /// Takes in a name, where it is new.
    pub(crate) fn add(
        &mut self,
        line: u32,
        kind: NameKind,
        name: &'a [u8],
    ) -> Result<(), AllocFailed<(&'a [u8], Declaration)>>
        ensures { IfOk result (λ _. self.new ≡ with_name self.old line kind name.now) }
    {
        if let Some(_) = self.get(name) {
            return Ok(());
        }
        // The length says that there are fewer than 2^63 names, so that the count of a kind has room for one more.
        let _ = self.index.len();
        let number = self.counts.of(kind);
        self.index.insert(name, Declaration { kind, line, number })?;
        self.counts.add(kind);
        Ok(())
    }

    /// The fault of a line that declares a name which an earlier one declares.
    pub(crate) fn duplicate(&self, line: u32, name: &[u8]) -> Option<FaultKind>
        ensures { result ≡ duplicate line (entry_of self.now name.now) }
    {
        match self.get(name) {
            None => None,
            Some(d) => if d.line < line {
                Some(FaultKind::DuplicateName)
            } else {
                None
            },
        }
    }

    /// The fault of a use of a name.
    pub(crate) fn used(&self, kind: NameKind, name: &[u8]) -> Option<FaultKind>
        ensures { result ≡ used kind (entry_of self.now name.now) }
    {
        match self.get(name) {
            None => Some(FaultKind::UnknownName),
            Some(d) => if d.kind.is_same(kind) {
                None
            } else {
                Some(FaultKind::WrongKind)
            },
        }
    }

    /// The number of the thing that a name stands for, among those of its kind.
    pub(crate) fn number_of(&self, kind: NameKind, name: &[u8]) -> Option<u16>
        ensures { result ≡ number_of_kind kind (entry_of self.now name.now) }
    {
        match self.get(name) {
            None => None,
            Some(d) => if d.kind.is_same(kind) && d.number < 256 {
                Some(d.number as u16)
            } else {
                None
            },
        }
    }
}
