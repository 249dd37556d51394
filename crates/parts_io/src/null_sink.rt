//! A sink that keeps nothing.
ghost use Rattle.std.specs.Prelude.{None, IsOk};

use crate::{Failed, Sink};

/// Takes all bytes, keeps none and tells no text. Its writes never fail.
#[derive(Drop)]
pub struct NullSink {}

impl NullSink {
    pub fn new() -> NullSink {
        NullSink {}
    }
}

impl Sink for NullSink {
    ghost use Rattle.parts_io.specs.Bytes.{WritesAll};
    ghost use Rattle.parts_io.specs.Causes.{HasCause};

    ghost text = { λ _. None };

    ghost faults = { λ _. 0 };

    /// Never fails.
    fn write(&mut self, bytes: &[u8]) -> Result<(), Failed>
        ensures written { WritesAll None None result bytes.now }
        ensures cause { HasCause 0 0 result }
        ensures sure { IsOk result }
    {
        // thrown away
        let _ = bytes;
        Ok(())
    }

    /// It does.
    #[inline]
    fn discards(&self) -> bool {
        true
    }
}
