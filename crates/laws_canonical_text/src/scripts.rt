//! What is written of a script is read back.
ghost use Rattle.script_table.specs.Table.{patterns};
ghost use Rattle.laws_canonical_text.specs.Tables.{ReadsBack, ReadsUpgraded};
ghost use Rattle.laws_canonical_text.specs.Statements.{KeepsOrder};

/// Each script that a text is read as is read again from its canonical text, which `write_script` writes.
pub fn scripts_read_back()
    ensures { ReadsBack patterns }
{}

/// The canonical text of a script that a text is read as says the text's statements anew, each with its
/// pattern and its canonical words, in the same order, but for the quantum's, which it says first.
pub fn scripts_keep_their_statements()
    ensures { KeepsOrder patterns }
{}

/// Each script that a text is read as, of either version, is read as the same script of version 2 from its
/// canonical text of that version.
pub fn upgrades_read_back()
    ensures { ReadsUpgraded patterns }
{}
