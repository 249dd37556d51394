//! The names of the threads.
ghost use Rattle.std.specs.Prelude.{◌≡◌, ◌≤◌, ◌<◌, ◌+◌, List, ℕ, [], length, replicate, slice_set, IfOk};
ghost use Rattle.parts_bytes.specs.Placed.{Placed};
ghost use Rattle.words_trace.specs.Text.{name_at};

use parts_bytes::place_within;
use std::alloc::{AllocError, Global};
use std::marker::Model;
use words_numbers::Tid;

// A name of at most 32 bytes, as its bytes.
#[derive(Drop)]
pub(crate) struct Name {
    text: [u8; 32],
    len: usize,
}

impl Model for Name {
    ghost use Rattle.std.specs.Prelude.{List, ℕ, ◌≤◌, take};

    ghost Value = { List ℕ };

    ghost view = { λ n. take n.len n.text };

    ghost invariant = { λ n. n.len ≤ 32 };
}

impl Name {
    fn of(bytes: &[u8]) -> Name
        requires { length bytes.now ≤ 32 }
        ensures { result ≡ bytes.now }
    {
        let mut text = [0; 32];
        text[..bytes.len()].copy_from_slice(bytes);
        Name {
            text,
            len: bytes.len(),
        }
    }

    fn bytes(&self) -> &[u8]
        ensures value { result.now ≡ self.now }
        ensures short { length result.now ≤ 32 }
    {
        &self.text[..self.len]
    }

    // Puts the name at a place with room for any name, and answers the place behind it.
    #[inline(always)]
    pub(crate) fn place(&self, buf: &mut [u8], at: usize) -> usize
        requires { at + 32 ≤ length buf.old }
        ensures placed { Placed buf.old buf.new at self.now result }
        ensures within { result ≤ at + 32 }
    {
        place_within::<32>(buf, at, &self.text, self.len)
    }
}

/// A name for each thread. It is seen as the list of the names, by the threads' numbers.
#[derive(Drop)]
pub struct Names {
    list: Vec<Name>,
}

impl Model for Names {
    ghost use Rattle.std.specs.Prelude.{List, ℕ};

    ghost Value = { List (List ℕ) };

    ghost view = { λ n. n.list.items };
}

impl Names {
    /// An empty name for each of so many threads. No later call takes memory.
    pub fn open(alloc: Global, threads: u16) -> Result<Names, AllocError>
        requires { threads ≤ 256 }
        ensures { IfOk result (λ names. names ≡ replicate threads []) }
    {
        let mut list = Vec::new(alloc);
        for _ in 0..threads {
            list.push(Name::of(b""))?;
        }
        Ok(Names { list })
    }

    /// Names a thread, by 1 to 32 bytes.
    pub fn set(&mut self, t: Tid, name: &[u8])
        requires known { t < length self.old }
        requires some { 1 ≤ length name.now }
        requires short { length name.now ≤ 32 }
        ensures { self.new ≡ slice_set self.old t name.now }
    {
        self.list[t.get() as usize] = Name::of(name);
    }

    /// The name of a thread, which is empty where none was set.
    pub fn get(&self, t: Tid) -> &[u8]
        requires { t < length self.now }
        ensures value { result.now ≡ name_at self.now t }
        ensures short { length result.now ≤ 32 }
    {
        self.name(t).bytes()
    }

    #[inline(always)]
    pub(crate) fn name(&self, t: Tid) -> &Name
        requires { t < length self.now }
        ensures { result.now ≡ name_at self.now t }
    {
        &self.list[t.get() as usize]
    }
}
