//! All parts of the kernel, and the smallest changes of them.
ghost use Rattle.std.specs.Prelude.{◌≡◌, ◌≤◌, ◌<◌, ◌^◌, [], length, slice_index, false};
ghost use Rattle.words_trace.specs.declared.event.Event.TheVariants as event;
ghost use Rattle.words_trace.specs.Text.{IsNamed, name_at};
ghost use Rattle.parts_tracer.specs.Tells.{Tells};
ghost use Rattle.rules_machine.specs.Dispatch.{dispatch_of, is_same};
ghost use Rattle.rules_machine.specs.Turns.{becomes, moves, takes_serial, tells};
ghost use Rattle.kernel_state.specs.Kernel.{after, ran, told};
ghost use Rattle.std.specs.Prelude.{Some, is_some};

use crate::clock::Clock;
use crate::direct::Direct;
use crate::named::Named;
use kernel_queues::Queues;
use kernel_semaphores::Semaphores;
use kernel_signals::{Actions, Pending};
use kernel_table::Table;
use parts_io::Sink;
use parts_ready::Ready;
use parts_tracer::{Names, Tracer};
use rules_machine::LastDispatch;
use script_code::Code;
use std::marker::Model;
use words_numbers::{Res, Tick, Tid};
use words_trace::{CallName, Event};

/// All parts of the kernel.
#[derive(Drop)]
pub struct Parts {
    pub(crate) code: Code,
    pub(crate) names: Names,
    pub(crate) table: Table,
    pub(crate) ready: Ready,
    pub(crate) semaphores: Semaphores,
    pub(crate) queues: Queues,
    pub(crate) pending: Pending,
    // what each signal does
    pub(crate) actions: Actions,
    pub(crate) quantum: u64,
    pub(crate) instant: Tick,
    pub(crate) clock: Clock,
    pub(crate) last: LastDispatch,
    pub(crate) next_serial: u64,
    pub(crate) killed: Option<u8>,
    // those that become the tail of their list at the next settling, in order
    pub(crate) direct: Direct,
    // those that may not stand where they are to stand; the others do
    pub(crate) named: Named,
}

impl Model for Parts {
    ghost use Rattle.kernel_state.specs.Kernel.{Kernel};

    ghost Value = { Kernel };

    ghost use Rattle.kernel_state.specs.View.{IsInside, kernel_of};

    ghost view = { kernel_of };

    ghost invariant = { IsInside };
}

impl Parts {
    /// Something happens now.
    pub fn tell<K: Sink>(&self, e: &Event, out: &mut Tracer<'_, K>)
        requires { IsNamed self.now.names e.now }
        ensures { Tells K.text K.faults self.now.names out.old out.new (told (tells e.now) self.now) }
    {
        out.put(self.instant, e, &self.names);
    }

    /// A call of a thread returns now.
    ///
    /// Nothing asks for `WAY`, by which each caller has a function of its own, which is inlined there: 0 `returns`, 1 `wake`, 2 `wake_owner`,
    /// 3 `mq_send`.
    #[inline(always)]
    pub fn tell_return<K: Sink, const WAY: usize>(
        &self,
        t: Tid,
        call: CallName,
        res: Res,
        value: u64,
        out: &mut Tracer<'_, K>,
    )
        requires { t < length self.now.names }
        ensures { Tells K.text K.faults self.now.names out.old out.new (told (tells (event.Return t call res value)) self.now) }
    {
        out.put_return::<WAY>(self.instant, t, call, res, value, &self.names);
    }

    /// The thread becomes the tail of its list at the next settling.
    pub fn move_later(&mut self, t: Tid)
        requires known { t < length self.old.names }
        requires room { length self.old.direct < 512 }
        ensures { self.new ≡ after (moves t) self.old }
    {
        self.direct.push(t);
    }

    pub fn count(&self) -> u16
        ensures value { result ≡ length self.now.names }
        ensures few { result ≤ 256 }
        ensures threads { result ≡ length self.now.machine.threads }
    {
        // so it is known which threads there are
        let _ = &self.names;
        self.table.count()
    }

    /// The thread of a number.
    pub fn tid(&self, number: u16) -> Tid
        requires { number < length self.now.names }
        ensures { result ≡ number }
    {
        // so it is known which threads there are
        let _ = &self.names;
        match Tid::try_new(number) {
            Some(t) => t,
            None => unreachable!(),
        }
    }

    /// The name of a thread.
    pub fn name(&self, t: Tid) -> &[u8]
        requires { t < length self.now.names }
        ensures value { result.now ≡ name_at self.now.names t }
        ensures short { length result.now ≤ 32 }
    {
        self.names.get(t)
    }

    pub fn direct_count(&self) -> usize
        ensures { result ≡ length self.now.direct }
    {
        self.direct.len()
    }

    pub fn direct_at(&self, i: usize) -> Tid
        requires { i < length self.now.direct }
        ensures value { result ≡ slice_index self.now.direct i }
        ensures known { result < length self.now.names }
    {
        self.direct.get(i)
    }

    pub fn clear_direct(&mut self)
        ensures { self.new ≡ record self.old { direct = [] } }
    {
        self.direct.clear();
    }

    pub fn instant(&self) -> Tick
        ensures { result ≡ self.now.machine.now }
    {
        self.instant
    }

    /// The thread that the last dispatch gave the processor to; `None` exactly where it was idle, or there was none.
    pub fn last_dispatch(&self) -> Option<Tid>
        ensures { result ≡ ran self.now.machine.last }
    {
        match self.last {
            LastDispatch::NoTick => None,
            LastDispatch::Idle => None,
            LastDispatch::Ran(t) => Some(t),
        }
    }

    /// Whether the last tick was given to the same.
    pub fn is_last(&self, to: &Option<Tid>) -> bool
        ensures { result ≡ is_same self.now.machine.last to.now }
    {
        let Some(t) = to else {
            return match self.last {
                LastDispatch::Idle => true,
                _ => false,
            };
        };
        match self.last {
            LastDispatch::Ran(u) => u.get() == t.get(),
            _ => false,
        }
    }

    /// The processor is given to that thread.
    pub fn set_last(&mut self, to: &Option<Tid>)
        ensures { self.new ≡ after (becomes (λ m. record m { last = dispatch_of to.now })) self.old }
    {
        self.last = match to {
            None => LastDispatch::Idle,
            Some(t) => LastDispatch::Ran(*t),
        };
    }

    pub fn is_killed(&self) -> bool
        ensures { result ≡ is_some self.now.machine.killed }
    {
        self.killed.is_some()
    }

    /// The signal that ended the process. `None` exactly where none did.
    pub fn killed(&self) -> Option<u8>
        ensures { result ≡ self.now.machine.killed }
    {
        self.killed
    }

    pub(crate) fn take_serial(&mut self) -> u64
        requires { self.old.machine.next_serial < 2 ^ 63 }
        ensures value { result ≡ self.old.machine.next_serial }
        ensures state { self.new ≡ after takes_serial self.old }
    {
        let serial = self.next_serial;
        self.next_serial += 1;
        serial
    }
}
