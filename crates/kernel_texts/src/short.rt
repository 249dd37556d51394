//! The names that a script declares are short.
ghost use Rattle.kernel_texts.specs.Modest.{NamesAreShort};

use words_script::Decl;

/// The names are short. It reads each once.
pub fn know_names(decls: &[Decl])
    ensures { NamesAreShort decls.now }
{
    for decl in decls {
        match decl {
            Decl::Named(name, _) => {
                let _bytes = name.bytes();
            }
            Decl::Action(_, _) => {}
        }
    }
}
