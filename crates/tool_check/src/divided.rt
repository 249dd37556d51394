//! Lines of a text of any length.
ghost use Rattle.std.specs.Prelude.{◌≡◌, ◌≤◌, ◌==◌, not, length, slice_get, IfSome};
ghost use Rattle.std.specs.List.{prefix_len};
ghost use Rattle.std.specs.Option.{option_map};
ghost use Rattle.script_lex.specs.Lines.{lines_of};
ghost use Rattle.tool_check.specs.Divided.{divider_at, divided, Divided};

// How many bytes stand before the first line end.
fn line_len(text: &[u8]) -> usize
    ensures len { result ≡ prefix_len (λ c. not (c == 10)) text.now }
    ensures bound { result ≤ length text.now }
{
    text.iter().take_while(|c| **c != b'\n').count()
}

// The line that has so many lines before it.
pub(crate) fn line_behind(text: &[u8], lines: u64) -> Option<&[u8]>
    ensures { option_map (λ l. l.now) result ≡ slice_get (lines_of text.now) lines }
{
    let mut at = 0;
    let mut left = lines;
    while at < text.len() {
        let rest = &text[at..];
        let len = line_len(rest);
        if left == 0 {
            return Some(&rest[..len]);
        }
        left -= 1;
        at += len + 1;
    }
    None
}

// How many bytes stand before the first line that is exactly `%%`.
fn divider_at(input: &[u8]) -> Option<usize>
    ensures value { result ≡ divider_at (lines_of input.now) }
    ensures within { IfSome result (λ n. n ≤ length input.now) }
{
    let mut at = 0;
    while at < input.len() {
        let rest = &input[at..];
        let len = line_len(rest);
        if &rest[..len] == b"%%".as_slice() {
            return Some(at);
        }
        at += len + 1;
    }
    None
}

/// Splits an input at the first of its lines that is exactly `%%`: what stands before that line, and what follows its line end. `None`
/// exactly where no line is `%%`.
pub fn divide(input: &[u8]) -> Option<(&[u8], &[u8])>
    ensures parts { option_map (λ p. let parts : Divided = record { head = p.0.now; trace = p.1.now } in parts) result ≡ divided input.now }
    ensures within { IfSome result (λ p. length p.1.now ≤ length input.now) }
    ensures head { IfSome result (λ p. length p.0.now ≤ length input.now) }
{
    match divider_at(input) {
        None => None,
        Some(at) => {
            let behind = (at + 3).min(input.len());
            Some((&input[..at], &input[behind..]))
        }
    }
}
