//! The texts of the facts of a run, as they are told instant by instant.
ghost use Rattle.std.specs.Prelude.{◌≡◌, ◌&&◌, IfOk, ℕ, false, length, true};
ghost use Rattle.words_script.specs.declared.name_kind.NameKind.TheVariants as kind;
ghost use Rattle.script_writer.specs.Names.{names_of};
ghost use Rattle.rules_machine.specs.declared.dispatch.LastDispatch.TheVariants as last;
ghost use Rattle.rules_machine.specs.Servers.{has_run};
ghost use Rattle.rules_machine.specs.Threads.{thread_at};
ghost use Rattle.rules_facts.specs.Facts.{facts};
ghost use Rattle.rules_facts.specs.Shown.{once_ended};
ghost use Rattle.script_printer.specs.Puts.{Put, outlet};
ghost use Rattle.kernel_texts.specs.Changed.{changed_lines};
ghost use Rattle.kernel_texts.specs.Kept.{texts_of};
ghost use Rattle.kernel_texts.specs.Numbered.{AreNumbered};
ghost use Rattle.kernel_texts.specs.Rooms.{HasObjectsOf};
ghost use Rattle.kernel_texts.specs.Subjects.{subjects_of};
ghost use Rattle.rules_flat_code.specs.Runnable.{IsRunnable};
ghost use Rattle.laws_detail.specs.Rests.{BeginsPlainly};
ghost use Rattle.kernel_leaps.specs.Detail.{AreReady, HaveRoomsFor};
ghost use Rattle.kernel_leaps.specs.Shown.{HasFewObjects};

use crate::plain_ticks::begins_plainly;
use kernel_looks::{Desk, look_at_facts};
use kernel_state::Parts;
use kernel_subjects::keep_subjects;
use kernel_texts::rooms_of;
use parts_io::Sink;
use parts_texts::NextText;
use script_printer::Printer;
use std::alloc::{AllocError, Global};
use words_script::Script;

// More bytes are not asked for.
const MOST_BYTES: usize = 1 << 39;

/// The texts of the facts of a run: their subjects, what was told of them last, and the lines of those that change. All rooms are taken
/// at the opening.
#[derive(Drop)]
pub struct FactTexts {
    desk: Desk,
    // one text, before it takes its place
    next: NextText,
    // whether the facts stay as they were told, unless something falls due: the ticks from there on begin plainly and only take time
    are_steady: bool,
}

impl FactTexts {
    /// No text, with rooms as large as the facts of the script's run need. `AllocError` comes where there is no memory for them. They come in a
    /// box, whose drop is one call on each way out of who holds them.
    pub fn open(alloc: Global, script: &Script) -> Result<Box<FactTexts>, AllocError>
        requires runnable { IsRunnable script.now }
        requires few { HasFewObjects script.now }
        ensures { IfOk result (λ t. HaveRoomsFor script.now t.value) }
    {
        let rooms = rooms_of(script);
        if rooms.room >= MOST_BYTES {
            return Err(AllocError);
        }
        // of each line what is in front of the text, and a byte more
        let lines = rooms.room + 22 * rooms.most + 1;
        let texts = FactTexts {
            desk: Desk::open(alloc, &rooms, lines)?,
            next: NextText::open(alloc, rooms.longest)?,
            are_steady: false,
        };
        Ok(Box::new(alloc, texts)?)
    }

    /// Takes in the subjects of the facts, and what is told of the state before the run.
    pub(crate) fn begin(&mut self, parts: &Parts, script: &Script)
        requires numbered { AreNumbered script.now parts.now.machine }
        requires objects { HasObjectsOf script.now parts.now.machine }
        requires named { parts.now.names ≡ names_of kind.Thread script.now.decls }
        requires rooms { HaveRoomsFor script.now self.old }
        ensures subjects { self.new.desk.subjects.texts ≡ subjects_of script.now.decls (facts script.now parts.now.machine) }
        ensures told { self.new.desk.told.texts ≡ texts_of script.now.decls (facts script.now (once_ended parts.now.machine.killed parts.now.machine)) }
        ensures signals { length parts.now.machine.actions ≡ 32 }
        ensures ready { AreReady script.now self.new }
        ensures unsteady { self.new.are_steady ≡ false }
    {
        // so it is known that there are 32
        let _signals = parts.signal_count();
        self.desk.subjects.clear();
        keep_subjects(parts, script, &mut self.next, &mut self.desk.subjects);
        look_at_facts(parts, script, &mut self.next, &mut self.desk);
        self.are_steady = false;
    }

    /// Takes in what is told of a state, and the lines of the facts that tell something else now than was told before. An instant at which
    /// nothing is due is not looked at where the facts are steady: they tell the same.
    pub(crate) fn look(&mut self, parts: &Parts, script: &Script, is_idle: bool)
        requires numbered { AreNumbered script.now parts.now.machine }
        requires objects { HasObjectsOf script.now parts.now.machine }
        requires named { parts.now.names ≡ names_of kind.Thread script.now.decls }
        requires ready { AreReady script.now self.old }
        requires latest { (u : ℕ) → has_run (thread_at parts.now.machine u).server ≡ true → parts.now.machine.last ≡ last.Ran u }
        requires same { is_idle ≡ true → self.old.are_steady ≡ true
            → self.old.desk.told.texts ≡ texts_of script.now.decls (facts script.now (once_ended parts.now.machine.killed parts.now.machine)) }
        ensures told { self.new.desk.told.texts ≡ texts_of script.now.decls (facts script.now (once_ended parts.now.machine.killed parts.now.machine)) }
        ensures lines { self.new.desk.lines.text ≡ changed_lines parts.now.machine.now self.old.desk.subjects.texts self.old.desk.told.texts self.new.desk.told.texts }
        ensures subjects { self.new.desk.subjects ≡ self.old.desk.subjects }
        ensures signals { length parts.now.machine.actions ≡ 32 }
        ensures ready { AreReady script.now self.new }
        ensures steady { self.new.are_steady ≡ true → BeginsPlainly parts.now.machine }
    {
        // so it is known that there are 32
        let _signals = parts.signal_count();
        if is_idle && self.are_steady {
            self.desk.lines.clear();
        } else {
            look_at_facts(parts, script, &mut self.next, &mut self.desk);
        }
        self.are_steady = begins_plainly(parts);
    }

    /// Ticks follow the state that was looked at last: the facts are steady only where these only take time.
    pub(crate) fn follow(&mut self, only_take_time: bool)
        ensures { self.new ≡ record self.old { are_steady = self.old.are_steady && only_take_time } }
    {
        self.are_steady = self.are_steady && only_take_time;
    }

    /// Writes the lines of the facts that changed, and answers whether a write failed.
    pub(crate) fn write_changed<K: Sink>(&self, sink: &mut K) -> bool
        ensures { Put (outlet K.text K.faults false sink.old) (outlet K.text K.faults result sink.new) self.now.desk.lines.text }
    {
        let mut out = Printer::new(sink);
        out.text(self.desk.lines.text());
        out.failed()
    }
}
