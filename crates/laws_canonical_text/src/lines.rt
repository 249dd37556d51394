//! What is written as lines is read back.
ghost use Rattle.std.specs.Prelude.{◌≡◌, ℕ, List, [], Ok};
ghost use Rattle.words_script.specs.declared.decl.Script.{Script};
ghost use Rattle.script_table.specs.declared.version.Version.{Version};
ghost use Rattle.script_table.specs.Heading.{Beginning};
ghost use Rattle.script_table.specs.Table.{patterns};
ghost use Rattle.script_table.specs.Read.{faults, read};
ghost use Rattle.script_table.specs.Patterns.{Row};
ghost use Rattle.script_writer.specs.Canon.{Words};
ghost use Rattle.laws_canonical_text.specs.Laws.{IsSound, KeepsPattern, HasNoFault, KeepsStatements, KeepsText, canonical_text, AreWords, ReadBack};

/// Lines of words read back from their text, each with its words, and none has a bad byte.
pub fn lines_read_back()
    ensures { (lines : List Words) → AreWords lines → ReadBack lines }
{}

/// A line that has a pattern and no fault of its own, written anew with its canonical words, has the same
/// pattern, no fault of its own, and its canonical words.
pub fn lines_keep_their_patterns()
    ensures { (version : Version) (row : Row) (line : List ℕ)
        → IsSound (patterns version) row line → KeepsPattern (patterns version) row line }
{}

/// Where the lines of a text of a version have no fault, their canonical lines have none; and they say the same
/// statements in the same order, each with its pattern and its canonical words.
pub fn lines_keep_their_statements()
    ensures { (b : Beginning) → HasNoFault (patterns b.version) b → KeepsStatements (patterns b.version) b }
{}

/// The canonical text of a text without faults has no fault, and says the same statements in the same order,
/// each with its pattern and its canonical words.
pub fn accepted_texts_stay_accepted()
    ensures { (text : List ℕ) → faults patterns text ≡ [] → KeepsText patterns text }
{}

/// A text that is read as a script and its canonical text, line by line, are read as the same script.
pub fn canonical_texts_read_the_same()
    ensures { (text : List ℕ) (script : Script) → read patterns text ≡ Ok script
        → read patterns (canonical_text patterns text) ≡ Ok script }
{}
