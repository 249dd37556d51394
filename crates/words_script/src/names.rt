//! Names of threads and objects.
ghost use Rattle.std.specs.Prelude.{◌≡◌, ◌≤◌, true, false, length, MatchOption};
ghost use Rattle.std.specs.List.{list_all};
ghost use Rattle.words_script.specs.Names.{is_name, begins_with_letter, is_name_byte};

use arrayvec::ArrayVec;
use std::marker::Model;

fn begins_with_letter(bytes: &[u8]) -> bool
    ensures { result ≡ begins_with_letter bytes.now }
{
    match bytes {
        [] => false,
        [first, ..] => b'a' <= *first && *first <= b'z',
    }
}

fn are_name_bytes(bytes: &[u8]) -> bool
    ensures { result ≡ list_all is_name_byte bytes.now }
{
    bytes.iter().all(|c| (b'a' <= *c && *c <= b'z') || ((b'0' <= *c && *c <= b'9') || *c == b'_'))
}

fn is_name(bytes: &[u8]) -> bool
    ensures { result ≡ is_name bytes.now }
{
    begins_with_letter(bytes) && (are_name_bytes(bytes) && bytes.len() <= 32)
}

/// A name: a small letter, then small letters, digits and `_`, at most 32 bytes. Contracts see it as its bytes.
#[derive(Drop)]
pub struct Name {
    text: ArrayVec<u8, 32>,
}

impl Model for Name {
    ghost use Rattle.std.specs.Prelude.{List, ℕ};

    ghost Value = { List ℕ };

    ghost view = { λ n. n.text.items };

    ghost use Rattle.std.specs.Prelude.{◌≡◌, true};
    ghost use Rattle.words_script.specs.Names.{is_name};

    ghost invariant = { λ n. is_name n.text.items ≡ true };
}

impl Name {
    /// The name that is spelled so; `None` exactly where the bytes are no name.
    pub fn try_new(bytes: &[u8]) -> Option<Name>
        ensures { MatchOption result (is_name bytes.now ≡ false) (λ n. (n ≡ bytes.now) × (is_name bytes.now ≡ true)) }
    {
        if !is_name(bytes) {
            return None;
        }
        let mut text = ArrayVec::new();
        let _ = text.try_extend_from_slice(bytes);
        Some(Name { text })
    }

    /// Its bytes, 1 to 32.
    pub fn bytes(&self) -> &[u8]
        ensures value { result.now ≡ self.now }
        ensures named { is_name result.now ≡ true }
        ensures short { length result.now ≤ 32 }
    {
        self.text.as_slice()
    }
}
