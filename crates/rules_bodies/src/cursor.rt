//! Places in the flat code.
use arrayvec::ArrayVec;
use words_numbers::Res;

/// A place in a body of the flat code, with what a frame keeps beside it.
#[derive(Drop)]
pub struct Cursor {
    /// The number of the body.
    pub body: u16,
    /// The number of the operation ahead, in its body.
    pub pc: u32,
    /// The register, at most 2·10^18.
    pub register: u64,
    /// The result of the frame's last call.
    pub result: Res,
    /// The value of the frame's last call.
    pub value: u64,
    /// The passes left of each counted loop round the place, the innermost last, the current pass included.
    pub counts: ArrayVec<u64, 16>,
}
