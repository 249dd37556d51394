//! A broken rule.

/// The first line of a trace that breaks a rule, from 1, and the least rule that it breaks, 1 to 6. Where a line never comes that is due, the
/// line is the one behind the last.
#[derive(Clone, Copy, Debug, PartialEq, Eq)]
pub struct Breach {
    pub line: u32,
    pub rule: u8,
}
