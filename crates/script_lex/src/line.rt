//! A line of a text.
ghost use Rattle.std.specs.Prelude.{◌≡◌, ◌≤◌, ◌==◌, not, length, take};
ghost use Rattle.std.specs.List.{prefix_len};
ghost use Rattle.script_lex.specs.Words.{has_bad_byte};

use crate::Words;

/// A line without its end, and its number in the text, from 1.
#[derive(Clone, Copy)]
pub struct Line<'a> {
    pub number: u32,
    pub bytes: &'a [u8],
    // The line and what follows it in the text.
    pub(crate) ahead: &'a [u8],
    // How many bytes stand before its comment.
    pub(crate) comment_at: u32,
    pub(crate) is_bad: bool,
    pub ghost in_a_text: { length bytes.now ≤ 67_108_864 },
    pub ghost stands_first: { bytes.now ≡ take (length bytes.now) ahead.now },
    pub ghost has_its_comment: { comment_at ≡ prefix_len (λ c. not (c == 35)) bytes.now },
    pub ghost has_its_bad_byte: { is_bad ≡ has_bad_byte bytes.now },
}

impl<'a> Line<'a> {
    ghost use Rattle.script_lex.specs.Words.{line_words, line_places, StandAt, before_comment};

    /// Whether the line has a byte other than a tab, a blank and the printed bytes 33 to 126,
    /// in its comment too.
    pub fn has_bad_byte(&self) -> bool
        ensures { result ≡ has_bad_byte self.now.bytes.now }
    {
        self.is_bad
    }

    // How many bytes stand before the comment.
    #[inline(always)]
    fn comment_start(&self) -> usize
        ensures bytes { take result self.now.ahead.now ≡ before_comment self.now.bytes.now }
        ensures bound { result ≤ length self.now.bytes.now }
    {
        self.comment_at as usize
    }

    /// The words before the comment.
    pub fn words(&self) -> Words<'a>
        ensures words { result.words ≡ line_words self.now.bytes.now }
        ensures places { result.places ≡ line_places self.now.bytes.now }
        ensures slices { StandAt self.now.bytes.now result.words result.places }
    {
        Words::of(self.ahead, self.comment_start())
    }
}
