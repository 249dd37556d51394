//! The texts of the facts as they were told last, through which a look at those of now goes.
ghost use Rattle.std.specs.Prelude.{◌≡◌, ◌<◌, ◌≤◌, ◌^◌, ◌+◌, ◌-◌, ◌∷◌, [], IfOk, List, false, length, slice_index_or, true};
ghost use Rattle.words_script.specs.declared.decl.Decl.{Decl};
ghost use Rattle.script_printer.specs.Puts.{Put, outlet};
ghost use Rattle.kernel_texts.specs.Changed.{changed_line};
ghost use Rattle.kernel_seen.specs.FactSeen.{IsMemoryOf, TellsIfAny, fact_seen};
ghost use Rattle.kernel_seen.specs.declared.fact_seen.FactSeen.TheVariants as variant;
ghost use Rattle.kernel_looks.specs.Ahead.{HavePlaces};
ghost use Rattle.kernel_looks.specs.Desk.{IsOpened, Went, WentOver};

use crate::changes::put_changed_line;
use kernel_seen::{FactSeen, SeenFacts};
use kernel_texts::Rooms;
use parts_io::Sink;
use parts_texts::{NextText, Slots, Texts};
use script_printer::Printer;
use std::alloc::{AllocError, Global};

/// The subjects of the facts, what was told of each last, and the lines of those that change. A look at the facts of now goes through
/// them by number; what stands in front of its place is told now.
#[derive(Drop)]
pub struct Desk {
    pub subjects: Texts,
    pub told: Slots,
    pub seen: SeenFacts,
    pub lines: NextText,
    pub at: usize,
    pub instant: u64,
    /// Whether there was no room for a text or a line.
    pub is_full: bool,
}

// Prints the line of a fact that changes to a sink, and answers whether a write failed.
fn print_changed_line<K: Sink>(
    now: u64,
    about: &[u8],
    before: &[u8],
    line: &[u8],
    sink: &mut K,
) -> bool
    ensures { Put (outlet K.text K.faults false sink.old) (outlet K.text K.faults result sink.new) (changed_line now about.now before.now line.now) }
{
    let mut out = Printer::new(sink);
    put_changed_line(&mut out, now, about, before, line);
    out.failed()
}

impl Desk {
    /// Empty, with rooms of these sizes, and one for so many bytes of lines.
    pub fn open(alloc: Global, rooms: &Rooms, lines: usize) -> Result<Desk, AllocError>
        requires few { rooms.now.most < 2 ^ 32 }
        requires small { rooms.now.room < 2 ^ 40 }
        requires short { rooms.now.longest < 2 ^ 40 }
        requires lines { lines < 2 ^ 40 }
        ensures { IfOk result (λ d. IsOpened rooms.now lines d) }
    {
        Ok(Desk {
            subjects: Texts::open(alloc, rooms.most, rooms.room)?,
            told: Slots::open(alloc, rooms.most, rooms.longest)?,
            seen: SeenFacts::open(alloc, rooms.most)?,
            lines: NextText::open(alloc, lines)?,
            at: 0,
            instant: 0,
            is_full: false,
        })
    }

    /// A look at the facts of this instant begins.
    pub fn begin(&mut self, now: u64)
        ensures { self.new ≡ record self.old { lines = record self.old.lines { text = []; faults = 0 }; at = 0; instant = now } }
    {
        self.lines.clear();
        self.at = 0;
        self.instant = now;
    }

    // Whether there is no place for a text, or none for one so long.
    fn has_no_place(&self, text: &[u8]) -> bool
        ensures place { result ≡ false → self.now.at < length self.now.told.texts }
        ensures subject { result ≡ false → self.now.at < length self.now.subjects.texts }
        ensures fits { result ≡ false → length text.now ≤ self.now.told.room }
        ensures small { result ≡ false → self.now.at < 2 ^ 64 - 1 }
        ensures only { self.now.at < length self.now.told.texts → self.now.at < length self.now.subjects.texts → length text.now ≤ self.now.told.room → result ≡ false }
    {
        self.at >= self.told.count()
            || self.at >= self.subjects.count()
            || text.len() > self.told.room()
    }

    // The look goes over a fact with this text, of which that is seen.
    fn go_over(&mut self, text: &[u8], seen: &FactSeen)
        ensures went { Went self.old self.new (text.now ∷ []) }
        ensures seen { (decls : List Decl) → IsMemoryOf decls self.old.told.texts self.old.seen
            → TellsIfAny decls (fact_seen seen.now) text.now → IsMemoryOf decls self.new.told.texts self.new.seen }
    {
        if self.has_no_place(text) {
            self.is_full = true;
            return;
        }
        let about = self.subjects.text(self.at);
        let before = self.told.text(self.at);
        let failed = print_changed_line(self.instant, about, before, text, &mut self.lines);
        self.lines.know_use();
        if failed {
            self.is_full = true;
            return;
        }
        self.told.put(self.at, text);
        self.seen.put(self.at, seen, text.is_empty());
        self.at += 1;
    }

    // Whether nothing was told of the fact that comes.
    fn was_empty(&self) -> bool
        ensures place { result ≡ true → self.now.at < length self.now.told.texts }
        ensures subject { result ≡ true → self.now.at < length self.now.subjects.texts }
        ensures empty { result ≡ true → slice_index_or self.now.told.texts self.now.at [] ≡ [] }
        ensures small { result ≡ true → self.now.at < 2 ^ 64 - 1 }
    {
        if self.at >= self.told.count() || self.at >= self.subjects.count() {
            return false;
        }
        self.told.text(self.at).is_empty()
    }

    /// The look goes over a fact that tells nothing.
    pub(crate) fn go_over_nothing(&mut self)
        ensures went { Went self.old self.new ([] ∷ []) }
        ensures seen { (decls : List Decl) → IsMemoryOf decls self.old.told.texts self.old.seen → IsMemoryOf decls self.new.told.texts self.new.seen }
    {
        if self.was_empty() {
            self.at += 1;
            return;
        }
        self.go_over(b"", &FactSeen::Unseen);
    }

    /// Whether there is a place for what is seen of the fact that comes.
    pub(crate) fn has_seen(&self) -> bool
        ensures { result ≡ true → self.now.at < length self.now.seen.facts }
    {
        self.at < self.seen.count()
    }

    /// What was seen last of the fact that comes.
    pub(crate) fn last_seen(&self) -> &FactSeen
        requires { self.now.at < length self.now.seen.facts }
        ensures { result.now ≡ slice_index_or self.now.seen.facts self.now.at variant.Unseen }
    {
        self.seen.last(self.at)
    }

    /// How many facts from here on have a place each.
    pub(crate) fn places(&self) -> usize
        ensures { HavePlaces self.now result }
    {
        let count = self
            .seen
            .count()
            .min(self.told.count())
            .min(self.subjects.count());
        count.saturating_sub(self.at)
    }

    /// What was seen last of the fact so many places ahead.
    pub(crate) fn seen_ahead(&self, ahead: usize) -> &FactSeen
        requires { self.now.at + ahead < length self.now.seen.facts }
        ensures { result.now ≡ slice_index_or self.now.seen.facts (self.now.at + ahead) variant.Unseen }
    {
        // so it is known that there are fewer than 2^64
        let _count = self.seen.count();
        self.seen.last(self.at + ahead)
    }

    /// Whether nothing was told of the fact so many places ahead.
    pub(crate) fn is_empty_ahead(&self, ahead: usize) -> bool
        requires { self.now.at + ahead < length self.now.told.texts }
        ensures { result ≡ true → slice_index_or self.now.told.texts (self.now.at + ahead) [] ≡ [] }
    {
        // so it is known that there are fewer than 2^64
        let _count = self.told.count();
        self.told.text(self.at + ahead).is_empty()
    }

    /// The look goes over so many facts, of which what was told stays.
    pub(crate) fn go_on(&mut self, count: usize)
        requires { self.old.at + count < 2 ^ 64 }
        ensures { self.new ≡ record self.old { at = self.old.at + count } }
    {
        self.at += count;
    }

    /// The look goes over a fact of which the same is told as last.
    pub(crate) fn go_over_same(&mut self)
        ensures went { Went self.old self.new (slice_index_or self.old.told.texts self.old.at [] ∷ []) }
        ensures seen { (decls : List Decl) → IsMemoryOf decls self.old.told.texts self.old.seen → IsMemoryOf decls self.new.told.texts self.new.seen }
    {
        if self.has_no_place(b"") {
            self.is_full = true;
            return;
        }
        self.at += 1;
    }

    /// The look goes over a fact with this text, of which that is seen, unless a write of the text failed.
    pub(crate) fn keep(&mut self, next: &NextText, failed: bool, seen: &FactSeen)
        ensures over { WentOver next.now failed self.old self.new }
        ensures seen { (decls : List Decl) → IsMemoryOf decls self.old.told.texts self.old.seen
            → (failed ≡ false → TellsIfAny decls (fact_seen seen.now) next.now.text) → IsMemoryOf decls self.new.told.texts self.new.seen }
    {
        next.know_use();
        if failed {
            self.is_full = true;
            return;
        }
        self.go_over(next.text(), seen);
    }
}
