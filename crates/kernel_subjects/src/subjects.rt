//! The subjects of the facts of a state as a list of texts.
ghost use Rattle.words_script.specs.declared.name_kind.NameKind.TheVariants as kind;
ghost use Rattle.script_writer.specs.Names.{names_of};
ghost use Rattle.std.specs.Prelude.{◌≡◌, ◌∷◌, ◌≤◌, [], codes, decimal, false, length, map};
ghost use Rattle.words_script.specs.declared.name_kind.NameKind.TheVariants as kind;
ghost use Rattle.rules_facts.specs.Facts.{facts};
ghost use Rattle.script_lex.specs.Joined.{joined_words};
ghost use Rattle.script_printer.specs.Puts.{Put, outlet};
ghost use Rattle.script_writer.specs.Line.{AreShort, spelled};
ghost use Rattle.script_writer.specs.Names.{name_of, names_of};
ghost use Rattle.words_numbers.specs.Words.{signal_word};
ghost use Rattle.kernel_texts.specs.Rows.{object_count};
ghost use Rattle.kernel_texts.specs.Kept.{HaveSameRooms, Kept, KeptIn};
ghost use Rattle.kernel_texts.specs.Numbered.{AreNumbered};
ghost use Rattle.kernel_texts.specs.Rooms.{HasObjectsOf, HasRooms};
ghost use Rattle.kernel_texts.specs.Subjects.{AreSubjects, about, list_subjects, lock_subjects, named_row, object_subjects, queue_subjects, signal_subjects, subjects_of, thread_subjects};

use kernel_lines::{
    Declared, know_few, know_rows, know_timers, object_count, object_name, object_of, thread_name,
};
use kernel_state::Parts;
use kernel_texts::{ObjectRow, keep, know_names};
use parts_io::Sink;
use parts_texts::{NextText, Texts};
use script_printer::Printer;
use script_writer::Word;
use script_writer::Word::{Keyword, Name, Number, Signal};
use words_numbers::{ObjId, Tid};
use words_script::{NameKind, Script};

// ---- one subject

// Prints words to a sink, with one blank between them, and answers whether a write failed.
fn print_words<K: Sink>(words: &[Word<'_>], sink: &mut K) -> bool
    requires { AreShort words.now }
    ensures { Put (outlet K.text K.faults false sink.old) (outlet K.text K.faults result sink.new) (joined_words (map spelled words.now)) }
{
    let mut out = Printer::new(sink);
    out.begin(words);
    out.failed()
}

fn keep_words(words: &[Word<'_>], next: &mut NextText, texts: &mut Texts)
    requires { AreShort words.now }
    ensures { KeptIn next.old next.new texts.old texts.new (joined_words (map spelled words.now) ∷ []) }
{
    next.clear();
    let failed = print_words(words, next);
    keep(next, failed, texts);
}

fn keep_list_subject(level: u8, next: &mut NextText, texts: &mut Texts)
    ensures { KeptIn next.old next.new texts.old texts.new (about (codes "list") (decimal level) ∷ []) }
{
    keep_words(&[Keyword(b"list"), Number(u64::from(level))], next, texts);
}

fn keep_thread_subject(
    decls: &Declared<'_>,
    keyword: &[u8],
    t: Tid,
    next: &mut NextText,
    texts: &mut Texts,
)
    requires { length keyword.now ≤ 16 }
    ensures { KeptIn next.old next.new texts.old texts.new (about keyword.now (name_of decls.now kind.Thread t) ∷ []) }
{
    keep_words(
        &[Keyword(keyword), Name(thread_name(decls, t))],
        next,
        texts,
    );
}

fn keep_object_subject(
    decls: &Declared<'_>,
    keyword: &[u8],
    of: NameKind,
    k: ObjId,
    next: &mut NextText,
    texts: &mut Texts,
)
    requires { length keyword.now ≤ 16 }
    ensures { KeptIn next.old next.new texts.old texts.new (about keyword.now (name_of decls.now of k) ∷ []) }
{
    keep_words(
        &[Keyword(keyword), Name(object_name(decls, of, k))],
        next,
        texts,
    );
}

fn keep_signal_subject(signal: u8, next: &mut NextText, texts: &mut Texts)
    ensures { KeptIn next.old next.new texts.old texts.new (about (codes "signal") (signal_word signal) ∷ []) }
{
    keep_words(&[Keyword(b"signal"), Signal(signal)], next, texts);
}

// ---- rows

// Keeps the subjects of the lists, that of the greatest priority first.
fn keep_list_subjects(next: &mut NextText, texts: &mut Texts)
    ensures { KeptIn next.old next.new texts.old texts.new list_subjects }
{
    for below in 0..255u8 {
        keep_list_subject(255 - below, next, texts);
    }
}

// Keeps the subjects of a row of threads, by number.
fn keep_thread_row(
    parts: &Parts,
    decls: &Declared<'_>,
    keyword: &[u8],
    next: &mut NextText,
    texts: &mut Texts,
)
    requires { length keyword.now ≤ 16 }
    ensures { KeptIn next.old next.new texts.old texts.new (named_row decls.now keyword.now kind.Thread (length parts.now.machine.threads)) }
{
    for number in 0..parts.count() {
        keep_thread_subject(decls, keyword, parts.tid(number), next, texts);
    }
}

// Keeps the subjects of all rows of threads.
fn keep_thread_subjects(parts: &Parts, decls: &Declared<'_>, next: &mut NextText, texts: &mut Texts)
    ensures { KeptIn next.old next.new texts.old texts.new (thread_subjects decls.now (length parts.now.machine.threads)) }
{
    keep_thread_row(parts, decls, b"thread", next, texts);
    keep_thread_row(parts, decls, b"frames", next, texts);
    keep_thread_row(parts, decls, b"mask", next, texts);
    keep_thread_row(parts, decls, b"cancelability", next, texts);
    keep_thread_row(parts, decls, b"cleanups", next, texts);
    keep_thread_row(parts, decls, b"pending", next, texts);
}

// Keeps the subjects of a row of objects that are of this kind, by number.
fn keep_object_row(
    parts: &Parts,
    decls: &Declared<'_>,
    row: ObjectRow,
    keyword: &[u8],
    of: NameKind,
    next: &mut NextText,
    texts: &mut Texts,
)
    requires few { object_count row decls.now parts.now.machine ≤ 256 }
    requires short { length keyword.now ≤ 16 }
    ensures { KeptIn next.old next.new texts.old texts.new (named_row decls.now keyword.now of (object_count row decls.now parts.now.machine)) }
{
    for number in 0..object_count(parts, decls, row) {
        keep_object_subject(decls, keyword, of, object_of(number), next, texts);
    }
}

// Keeps the subjects of who waits to send to each queue, and of who waits for a message of it.
fn keep_queue_subjects(parts: &Parts, decls: &Declared<'_>, next: &mut NextText, texts: &mut Texts)
    requires { length parts.now.machine.queues ≤ 256 }
    ensures { KeptIn next.old next.new texts.old texts.new (queue_subjects decls.now (length parts.now.machine.queues)) }
{
    for number in 0..parts.queue_count() {
        keep_object_subject(
            decls,
            b"senders",
            NameKind::Queue,
            object_of(number),
            next,
            texts,
        );
        keep_object_subject(
            decls,
            b"receivers",
            NameKind::Queue,
            object_of(number),
            next,
            texts,
        );
    }
}

// Keeps the subjects of the rows of mutexes, conditions and semaphores.
fn keep_lock_subjects(parts: &Parts, decls: &Declared<'_>, next: &mut NextText, texts: &mut Texts)
    requires mutexes { length parts.now.machine.mutexes ≤ 256 }
    requires conditions { length (names_of kind.Cond decls.now) ≤ 256 }
    requires semaphores { length parts.now.machine.semaphores ≤ 256 }
    ensures { KeptIn next.old next.new texts.old texts.new (lock_subjects decls.now parts.now.machine) }
{
    use NameKind::{Cond, Mutex, Sem};
    keep_object_row(parts, decls, ObjectRow::Owner, b"mutex", Mutex, next, texts);
    keep_object_row(
        parts,
        decls,
        ObjectRow::MutexWaiters,
        b"waiters",
        Mutex,
        next,
        texts,
    );
    keep_object_row(
        parts,
        decls,
        ObjectRow::ConditionWaiters,
        b"waiters",
        Cond,
        next,
        texts,
    );
    keep_object_row(
        parts,
        decls,
        ObjectRow::SemaphoreWaiters,
        b"waiters",
        Sem,
        next,
        texts,
    );
    keep_object_row(parts, decls, ObjectRow::Value, b"sem", Sem, next, texts);
}

// Keeps the subjects of all rows of objects but that of signals.
fn keep_object_subjects(parts: &Parts, script: &Script, next: &mut NextText, texts: &mut Texts)
    requires numbered { AreNumbered script.now parts.now.machine }
    requires named { parts.now.names ≡ names_of kind.Thread script.now.decls }
    ensures { KeptIn next.old next.new texts.old texts.new (object_subjects script.now.decls parts.now.machine) }
{
    let decls = &Declared::of(script.decls.items(), parts);
    keep_lock_subjects(parts, decls, next, texts);
    keep_object_row(
        parts,
        decls,
        ObjectRow::Messages,
        b"messages",
        NameKind::Queue,
        next,
        texts,
    );
    keep_queue_subjects(parts, decls, next, texts);
    keep_object_row(
        parts,
        decls,
        ObjectRow::Registration,
        b"notify",
        NameKind::Queue,
        next,
        texts,
    );
    know_timers(parts);
    keep_object_row(
        parts,
        decls,
        ObjectRow::Arming,
        b"timer",
        NameKind::Timer,
        next,
        texts,
    );
}

// Keeps the subjects of the 32 signals, by number.
fn keep_signal_subjects(next: &mut NextText, texts: &mut Texts)
    ensures { KeptIn next.old next.new texts.old texts.new (signal_subjects 32) }
{
    for signal in 0..32u8 {
        keep_signal_subject(signal, next, texts);
    }
}

/// Puts the text of the subject of each fact of the state behind the texts, in their order. They are the same for all states of a run.
/// Where one has no room, the list is full from then on; in rooms as large as those of `rooms_of` each has room. It takes no memory.
pub fn keep_subjects(parts: &Parts, script: &Script, next: &mut NextText, texts: &mut Texts)
    requires numbered { AreNumbered script.now parts.now.machine }
    requires named { parts.now.names ≡ names_of kind.Thread script.now.decls }
    ensures kept { Kept texts.old texts.new (subjects_of script.now.decls (facts script.now parts.now.machine)) }
    ensures room { next.new.room ≡ next.old.room }
    ensures rooms { texts.new.is_full ≡ false → HaveSameRooms texts.old texts.new }
    ensures roomy { HasObjectsOf script.now parts.now.machine → texts.old.texts ≡ [] → HasRooms script.now next.old.room texts.old → HasRooms script.now next.new.room texts.new }
    ensures fit { HasObjectsOf script.now parts.now.machine → texts.old.texts ≡ [] → HasRooms script.now next.old.room texts.old → AreSubjects script.now next.old.room (subjects_of script.now.decls (facts script.now parts.now.machine)) }
{
    let items = script.decls.items();
    know_names(items);
    let decls = &Declared::of(items, parts);
    know_rows(parts);
    know_few(parts);
    keep_list_subjects(next, texts);
    keep_thread_subjects(parts, decls, next, texts);
    keep_object_subjects(parts, script, next, texts);
    keep_signal_subjects(next, texts);
}
