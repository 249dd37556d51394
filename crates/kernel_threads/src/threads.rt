//! The threads by their numbers.
ghost use Rattle.std.specs.Prelude.{◌≡◌, ◌<◌, ◌≤◌, length, map, IfOk};
ghost use Rattle.rules_machine.specs.Declarations.{threads_of};
ghost use Rattle.rules_machine.specs.Runs.{thread_opened};
ghost use Rattle.std.specs.Borrow.{sem};
ghost use Rattle.rules_machine.specs.Servers.{has_run};
ghost use Rattle.rules_machine.specs.Threads.{thread_in};
ghost use Rattle.kernel_threads.specs.Lending.{LendsThread};

use crate::open::open_threads;
use crate::thread::Thread;
use std::alloc::{AllocError, Global};
use std::marker::Model;
use words_numbers::Tid;
use words_script::Script;

/// The threads by their numbers.
#[derive(Drop)]
pub struct Threads {
    items: Vec<Thread>,
}

impl Model for Threads {
    ghost use Rattle.std.specs.Prelude.{List, ◌≤◌, length};
    ghost use Rattle.rules_bodies.specs.declared.cursor.Cursor.{Cursor};
    ghost use Rattle.rules_machine.specs.State as machine;

    ghost Value = { List (machine.Thread Cursor) };

    ghost view = { λ t. t.items.items };

    ghost invariant = { λ t. length t.items.items ≤ 256 };
}

impl Threads {
    /// The threads of a script, dormant.
    pub fn open(alloc: Global, script: &Script) -> Result<Threads, AllocError>
        requires { length (threads_of script.now) ≤ 256 }
        ensures { IfOk result (λ v. v ≡ map thread_opened (threads_of script.now)) }
    {
        let items = open_threads(alloc, script)?;
        Ok(Threads { items })
    }

    pub fn count(&self) -> u16
        ensures value { result ≡ length self.now }
        ensures few { result ≤ 256 }
    {
        self.items.len() as u16
    }

    pub fn get(&self, t: Tid) -> &Thread
        requires { t < length self.now }
        ensures { result.now ≡ thread_in self.now t }
    {
        &self.items[t.get() as usize]
    }

    /// Whether that thread has an open run of its server; none has where there is no such thread.
    pub fn has_run(&self, t: Tid) -> bool
        ensures { result ≡ has_run (thread_in self.now t).server }
    {
        match self.items.get(t.get() as usize) {
            None => false,
            Some(thread) => thread.has_run(),
        }
    }

    pub fn get_mut(&mut self, t: Tid) -> &mut Thread
        requires { t < length self.old }
        ensures* writes_back { sem 𝓛 (LendsThread self.entry t result) }
        ensures value { result.now ≡ thread_in self.old t }
    {
        &mut self.items[t.get() as usize]
    }
}
