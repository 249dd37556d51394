//! A sink of a room that stays known.
ghost use Rattle.std.specs.Prelude.{◌≡◌, ◌<◌, ◌^◌, ◌⊎◌, ℕ, [], length, IfOk, Some};

use crate::Limited;
use parts_io::{Failed, Sink};
use std::alloc::{AllocError, Global};
use std::marker::{Brand, Model, PhantomData};

/// A number of bytes that is known only at run time, which a type of sinks is tied to.
pub trait Room {
    /// How many bytes such a sink has room for.
    ghost room: { ℕ };
}

impl Room for Brand {
    ghost room = { 0 };
}

/// A [`Limited`] of the room R. A call that takes any sink says nothing of the room of the one that it is given: this type does.
#[derive(Drop)]
pub struct KnownRoom<R: Room> {
    limited: Limited,
    of: PhantomData<R>,
}

impl<R: Room> Model for KnownRoom<R> {
    ghost use Rattle.std.specs.Prelude.{◌≡◌};
    ghost use Rattle.tool_check.specs.Held.{Held};

    ghost Value = { Held };

    ghost view = { λ s. s.limited };

    ghost invariant = { λ s. s.limited.room ≡ R.room };
}

impl<R: Room> KnownRoom<R> {
    /// An empty text with room for `cap` bytes, which are allocated at once.
    pub fn open(alloc: Global, cap: u64) -> Result<KnownRoom<R>, AllocError>
        requires small { cap < 2 ^ 40 }
        requires room { cap ≡ R.room }
        ensures { IfOk result (λ sink. sink ≡ record { text = []; room = cap; faults = 0 }) }
    {
        Ok(KnownRoom {
            limited: Limited::open(alloc, cap)?,
            of: PhantomData,
        })
    }

    /// What is held: where a write has failed, as many bytes as there is room for.
    pub fn text(&self) -> &[u8]
        ensures value { result.now ≡ self.now.text }
        ensures full { (self.now.faults ≡ 0) ⊎ (length result.now ≡ R.room) }
    {
        self.limited.text()
    }
}

impl<R: Room> Sink for KnownRoom<R> {
    ghost use Rattle.parts_io.specs.Bytes.{WritesAll};
    ghost use Rattle.parts_io.specs.Causes.{HasCause};

    ghost text = { λ s. Some s.text };

    ghost faults = { λ s. s.faults };

    /// Fails exactly where the text would be longer than its room, and then holds as many bytes as it has room for.
    fn write(&mut self, bytes: &[u8]) -> Result<(), Failed>
        ensures written { WritesAll (Some self.old.text) (Some self.new.text) result bytes.now }
        ensures cause { HasCause self.old.faults self.new.faults result }
    {
        self.limited.write(bytes)
    }
}
