//! What lines declare, and the least fault of phase 2.
ghost use Rattle.std.specs.Prelude.{ℕ, ◌≡◌, ◌≤◌, ◌∷◌, ◌++◌, [], map, None, Some, MatchResult};
ghost use Rattle.std.specs.List.{list_any};
ghost use Rattle.std.specs.Option.{option_map};
ghost use Rattle.script_table.specs.Faults.{least, least_kind};
ghost use Rattle.script_table.specs.Patterns.{spot_of};
ghost use Rattle.script_table.specs.LineFaults.{place_faults};
ghost use Rattle.script_table.specs.Structure.{IsRising};
ghost use Rattle.script_table.specs.Names.{nothing_declared, with_declaration, declared_at, declared, declared_from, name_fault, name_faults, phase_two};
ghost use Rattle.script_reader.specs.Ends.{answered};
ghost use Rattle.script_reader.specs.Declarations.{declares, is_named, naming_lines};

use crate::ScriptEnd;
use crate::names::NameIndex;
use crate::structure::statement::Statement;
use script_lex::Words;
use script_table::{FaultKind, NameKind, Place, lesser_first};
use std::alloc::Global;
use std::marker::Model;

fn declares(place: &Place) -> bool
    ensures { result ≡ declares (spot_of place.now) }
{
    match place {
        Place::Declares(_) | Place::Acts => true,
        _ => false,
    }
}

fn any_declares(places: &[Place]) -> bool
    ensures { result ≡ list_any declares (map spot_of places.now) }
{
    for place in places {
        if declares(place) {
            return true;
        }
    }
    false
}

fn is_named(place: &Place) -> bool
    ensures { result ≡ is_named (spot_of place.now) }
{
    match place {
        Place::Declares(_) | Place::Uses(_) | Place::Acts => true,
        _ => false,
    }
}

fn any_is_named(places: &[Place]) -> bool
    ensures { result ≡ list_any is_named (map spot_of places.now) }
{
    for place in places {
        if is_named(place) {
            return true;
        }
    }
    false
}

/// All names, and the signals that have an action.
#[derive(Drop)]
pub(crate) struct Declared<'a> {
    names: NameIndex<'a>,
    actions: NameIndex<'a>,
}

impl<'a> Model for Declared<'a> {
    ghost use Rattle.script_table.specs.Names.{Declared as DeclaredNames};

    ghost Value = { DeclaredNames };

    ghost view = { λ d. record { names = d.names; actions = d.actions } };
}

impl<'a> Declared<'a> {
    pub(crate) fn new(alloc: Global) -> Declared<'a>
        ensures { result ≡ nothing_declared }
    {
        Declared {
            names: NameIndex::new(alloc),
            actions: NameIndex::new(alloc),
        }
    }

    pub(crate) fn names(&self) -> &NameIndex<'a>
        ensures { result.now ≡ self.now.names }
    {
        &self.names
    }

    fn name_fault(&self, line: u32, place: &Place, word: &[u8]) -> Option<FaultKind>
        ensures { result ≡ name_fault self.now line (spot_of place.now) word.now }
    {
        match place {
            Place::Declares(_) => self.names.duplicate(line, word),
            Place::Uses(kind) => self.names.used(*kind, word),
            Place::Acts => self.actions.duplicate(line, word),
            _ => None,
        }
    }

    fn place_fault(&self, line: u32, places: &[Place], mut words: Words<'_>) -> Option<FaultKind>
        ensures { result
            ≡ least_kind (place_faults (name_fault self.now line) (map spot_of places.now) words.entry.words) }
    {
        match places {
            [] => None,
            [place, rest @ ..] => match words.next_word() {
                None => None,
                Some(word) => {
                    let here = self.name_fault(line, place, word.bytes);
                    lesser_first(here, self.place_fault(line, rest, words))
                }
            },
        }
    }

    fn declare_word(&mut self, line: u32, place: &Place, word: &'a [u8]) -> Result<(), ScriptEnd>
        ensures { MatchResult result
            (λ _. self.new ≡ with_declaration self.old line (spot_of place.now) word.now)
            (λ e. e ≡ ScriptEnd.OutOfMemory) }
    {
        match place {
            Place::Declares(kind) => {
                self.names.add(line, *kind, word)?;
                Ok(())
            }
            Place::Acts => {
                self.actions.add(line, NameKind::Handler, word)?;
                Ok(())
            }
            _ => Ok(()),
        }
    }

    fn declare(
        &mut self,
        line: u32,
        places: &[Place],
        mut words: Words<'a>,
    ) -> Result<(), ScriptEnd>
        ensures { MatchResult result
            (λ _. self.new ≡ declared_at self.old line (map spot_of places.now) words.entry.words)
            (λ e. e ≡ ScriptEnd.OutOfMemory) }
    {
        match places {
            [] => Ok(()),
            [place, rest @ ..] => match words.next_word() {
                None => Ok(()),
                Some(word) => {
                    self.declare_word(line, place, word.bytes)?;
                    self.declare(line, rest, words)
                }
            },
        }
    }

    // Most lines declare nothing, and their words are not read here.
    fn declare_line(&mut self, s: &Statement<'a>) -> Result<(), ScriptEnd>
        ensures { MatchResult result
            (λ _. self.new ≡ declared_at self.old s.now.line s.now.row.places s.now.words)
            (λ e. e ≡ ScriptEnd.OutOfMemory) }
    {
        if !any_declares(s.places()) {
            return Ok(());
        }
        self.declare(s.line(), s.places(), s.operands())
    }

    fn line_fault(&self, s: &Statement<'_>) -> Option<FaultKind>
        ensures { result ≡ least_kind (name_faults self.now s.now) }
    {
        self.place_fault(s.line(), s.places(), s.operands())
    }
}

/// All that lines declare, and the lines that name something, which alone can be at fault for a name.
#[derive(Drop)]
pub(crate) struct Naming<'s, 'a> {
    pub declared: Declared<'a>,
    pub lines: Vec<&'s Statement<'a>>,
}

impl<'s, 'a> Naming<'s, 'a> {
    // Takes in lines. Most name nothing, and their words are not read here.
    fn add_all(&mut self, statements: &'s [Statement<'a>]) -> Result<(), ScriptEnd>
        ensures { MatchResult result
            (λ _. (self.new.declared ≡ declared_from self.old.declared statements.now)
            × (map (λ s. s.now) self.new.lines.items ≡ map (λ s. s.now) self.old.lines.items ++ naming_lines statements.now))
            (λ e. e ≡ ScriptEnd.OutOfMemory) }
    {
        for s in statements {
            if !any_is_named(s.places()) {
                continue;
            }
            self.declared.declare_line(s)?;
            self.lines.push(s)?;
        }
        Ok(())
    }
}

/// What these lines declare, and which of them name something.
#[inline(never)]
pub(crate) fn declare_all<'s, 'a>(
    alloc: Global,
    statements: &'s [Statement<'a>],
) -> Result<Naming<'s, 'a>, ScriptEnd>
    ensures { MatchResult result
        (λ n. (n.declared ≡ declared statements.now) × (map (λ s. s.now) n.lines.items ≡ naming_lines statements.now))
        (λ e. e ≡ ScriptEnd.OutOfMemory) }
{
    let mut naming: Naming<'s, 'a> = Naming {
        declared: Declared::new(alloc),
        lines: Vec::new(alloc),
    };
    naming.add_all(statements)?;
    Ok(naming)
}

/// The least fault of phase 2 of lines that name something.
pub(crate) fn check_names(all: &Declared<'_>, lines: &[&Statement<'_>]) -> Result<(), ScriptEnd>
    requires { (last : ℕ) × IsRising last (map (λ s. s.now) lines.now) }
    ensures { MatchResult result (λ _. least (phase_two all.now (map (λ s. s.now) lines.now)) ≡ None)
        (λ e. option_map answered (least (phase_two all.now (map (λ s. s.now) lines.now))) ≡ Some e) }
{
    for s in lines {
        if let Some(kind) = all.line_fault(s) {
            return Err(ScriptEnd::Fault(s.line(), kind));
        }
    }
    Ok(())
}
