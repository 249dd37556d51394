//! Where two texts differ.
ghost use Rattle.std.specs.Prelude.{◌≡◌, ◌≤◌, length};
ghost use Rattle.tool_check.specs.Difference.{common_len, line_ends, difference};

// How long the longest common beginning is.
fn common_len(have: &[u8], want: &[u8]) -> usize
    ensures value { result ≡ common_len have.now want.now }
    ensures within { result ≤ length have.now }
{
    let mut at = 0;
    while at < have.len() && at < want.len() && have[at] == want[at] {
        at += 1;
    }
    at
}

fn line_ends(text: &[u8]) -> usize
    ensures value { result ≡ line_ends text.now }
    ensures within { result ≤ length text.now }
{
    text.iter().filter(|c| **c == b'\n').count()
}

/// The number of the first line that differs, from 1: one more than the number of line ends in the longest common beginning.
/// `None` exactly where the texts are equal.
pub fn first_difference(have: &[u8], want: &[u8]) -> Option<u64>
    ensures { result ≡ difference have.now want.now }
{
    if have == want {
        return None;
    }
    let common = &have[..common_len(have, want)];
    Some(line_ends(common) as u64 + 1)
}
