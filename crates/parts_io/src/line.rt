//! Lines that are made where they are to stand.
ghost use Rattle.std.specs.Prelude.{◌≡◌, ◌≤◌, ◌+◌, List, ℕ, length};
ghost use Rattle.parts_bytes.specs.Placed.{Placed};

/// How long a line is at most, in bytes.
pub const LINE_ROOM: usize = 256;

/// A line of at most 256 bytes, which is made at its place in a buffer.
pub trait Line {
    /// Its bytes.
    ghost bytes: { Self → List ℕ };

    /// Makes the line at a place with room for any, and answers the place behind it.
    fn place(self, buf: &mut [u8], at: usize) -> usize
        requires { at + 256 ≤ length buf.old }
        ensures placed { Placed buf.old buf.new at (bytes self) result }
        ensures within { result ≤ at + 256 };
}
