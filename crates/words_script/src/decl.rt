//! Declarations, and the script.
ghost use Rattle.std.specs.Prelude.{◌≡◌};

use crate::{Body, Name, NameKind, Policy, Protocol};
use std::marker::Model;
use words_numbers::ObjId;

/// What a name stands for.
#[derive(Drop)]
pub enum Kind {
    /// A thread. Without a start it is dormant until it is created; times are in ticks.
    Thread {
        policy: Policy,
        start: Option<u64>,
        body: Body,
    },
    /// A signal handler.
    Handler {
        body: Body,
    },
    /// A cleanup handler.
    Cleanup {
        body: Body,
    },
    Mutex {
        protocol: Protocol,
        recursive: bool,
    },
    Cond,
    /// A semaphore of that first value, 0 to 32,767.
    Sem {
        value: u32,
    },
    /// A message queue: at most 1 to 64 messages, each of at most 1 to 65,536 bytes.
    Queue {
        depth: u32,
        max_len: u32,
        nonblock: bool,
    },
    /// An interval timer with the signal of its expiry, 0 to 31, and that signal's value.
    Timer {
        sig: u8,
        value: u64,
        /// Whether its clock is CLOCK_REALTIME.
        real: bool,
    },
}

impl Kind {
    ghost use Rattle.words_script.specs.Kinds.{kind_of};

    /// The kind alone.
    pub fn name_kind(&self) -> NameKind
        ensures { result ≡ kind_of self.now }
    {
        match self {
            Kind::Thread { .. } => NameKind::Thread,
            Kind::Handler { .. } => NameKind::Handler,
            Kind::Cleanup { .. } => NameKind::Cleanup,
            Kind::Mutex { .. } => NameKind::Mutex,
            Kind::Cond => NameKind::Cond,
            Kind::Sem { .. } => NameKind::Sem,
            Kind::Queue { .. } => NameKind::Queue,
            Kind::Timer { .. } => NameKind::Timer,
        }
    }
}

/// A declaration of a script.
#[derive(Drop)]
pub enum Decl {
    Named(Name, Kind),
    /// What a signal does, 0 to 31: it runs a handler, or is ignored where there is none.
    Action(u8, Option<ObjId>),
}

/// Declarations in their order. Contracts see them as a list.
#[derive(Drop)]
pub struct Decls {
    list: Vec<Decl>,
}

impl Model for Decls {
    ghost use Rattle.std.specs.Prelude.{List};
    ghost use Rattle.words_script.specs.declared.decl.Decl.{Decl};

    ghost Value = { List Decl };

    ghost use Rattle.std.specs.Coded.{codes};
    ghost use Rattle.words_script.specs.contracts.body.Body as body;

    ghost coded = { Prim.hlevel (codes, body.the_row.coded) };

    ghost view = { λ d. d.list.items };
}

impl Decls {
    /// These declarations.
    pub fn new(items: Vec<Decl>) -> Decls
        ensures { result ≡ items.items }
    {
        Decls { list: items }
    }

    /// The declarations, in order.
    pub fn items(&self) -> &[Decl]
        ensures { result.now ≡ self.now }
    {
        self.list.as_slice()
    }
}

/// A script: the version of its language, 1 or 2, which no rule of the machine looks at; the quantum of SCHED_RR in ticks; and what is declared.
#[derive(Drop)]
pub struct Script {
    pub version: u8,
    pub quantum: u64,
    pub decls: Decls,
}
