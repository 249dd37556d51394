//! One text is put behind others.
ghost use Rattle.kernel_texts.specs.Kept.{KeptOne};

use parts_texts::{NextText, Texts};

/// Puts a text behind the others, unless a write of it failed.
pub fn keep(next: &NextText, failed: bool, texts: &mut Texts)
    ensures { KeptOne next.now failed texts.old texts.new }
{
    next.know_use();
    if failed {
        texts.close();
    } else {
        texts.push(next.text());
    }
}
