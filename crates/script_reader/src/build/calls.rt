//! The call that a line makes.
ghost use Rattle.std.specs.Prelude.{◌≡◌};
ghost use Rattle.std.specs.Option.{option_map};
ghost use Rattle.words_script.specs.declared.call.Call.TheVariants as calls;
ghost use Rattle.words_script.specs.declared.name_kind.NameKind.TheVariants as kind;
ghost use Rattle.script_table.specs.Operands.{amount_at, map_five, map_four, map_three, map_two, named_at, number_in, operand_at, priority_at, signal_at, signals_at};
ghost use Rattle.script_table.specs.Calls.{thread_call, mutex_call, sem_call, time_call, signal_call, message_call, call_of};

use crate::names::NameIndex;
use crate::operands::{
    amount, fifo, moment, number_in, object, operand, priority, real, rr, signal, signals,
    sporadic, strict, thread,
};
use crate::structure::statement::LineWords;
use crate::{Call, Policy};
use script_table::{
    CallForm, MessageCall, MutexCall, NameKind, SemCall, SignalCall, ThreadCall, TimeCall,
};
use words_numbers::ObjId;
use words_script::Moment;

fn setprio(names: &NameIndex<'_>, words: &LineWords<'_>) -> Option<Call>
    ensures { result ≡ map_two calls.Setprio (named_at kind.Thread names.now 1 words.now) (priority_at 2 words.now) }
{
    let thread = thread(names, 1, words)?;
    Some(Call::Setprio(thread, priority(2, words)?))
}

fn setsched(names: &NameIndex<'_>, words: &LineWords<'_>, policy: Option<Policy>) -> Option<Call>
    ensures { result ≡ map_two calls.Setsched (named_at kind.Thread names.now 1 words.now) policy }
{
    let thread = thread(names, 1, words)?;
    Some(Call::Setsched(thread, policy?))
}

fn thread_call(names: &NameIndex<'_>, form: ThreadCall, words: &LineWords<'_>) -> Option<Call>
    ensures { result ≡ thread_call names.now form words.now }
{
    match form {
        ThreadCall::Yield => Some(Call::Yield),
        ThreadCall::Create => Some(Call::Create(thread(names, 1, words)?)),
        ThreadCall::Join => Some(Call::Join(thread(names, 1, words)?)),
        ThreadCall::Cancel => Some(Call::Cancel(thread(names, 1, words)?)),
        ThreadCall::Testcancel => Some(Call::Testcancel),
        ThreadCall::SetcancelEnable => Some(Call::Setcancel(true)),
        ThreadCall::SetcancelDisable => Some(Call::Setcancel(false)),
        ThreadCall::Exit => Some(Call::Exit(operand(1, words)?)),
        ThreadCall::Setprio => setprio(names, words),
        ThreadCall::SetschedFifo => setsched(names, words, fifo(3, words)),
        ThreadCall::SetschedRr => setsched(names, words, rr(3, words)),
        ThreadCall::SetschedSporadic => setsched(names, words, sporadic(words)),
        ThreadCall::SetschedStrict => setsched(names, words, strict(words)),
    }
}

fn timedlock(names: &NameIndex<'_>, words: &LineWords<'_>, at: Option<Moment>) -> Option<Call>
    ensures { result ≡ map_two calls.Timedlock (named_at kind.Mutex names.now 1 words.now) at }
{
    let mutex = object(NameKind::Mutex, names, 1, words)?;
    Some(Call::Timedlock { mutex, at: at? })
}

fn wait(names: &NameIndex<'_>, words: &LineWords<'_>) -> Option<Call>
    ensures { result ≡ map_two calls.Wait (named_at kind.Cond names.now 1 words.now) (named_at kind.Mutex names.now 2 words.now) }
{
    let cond = object(NameKind::Cond, names, 1, words)?;
    Some(Call::Wait(cond, object(NameKind::Mutex, names, 2, words)?))
}

fn timedwait(names: &NameIndex<'_>, words: &LineWords<'_>, at: Option<Moment>) -> Option<Call>
    ensures { result ≡ map_three calls.Timedwait (named_at kind.Cond names.now 1 words.now) (named_at kind.Mutex names.now 2 words.now) at }
{
    let cond = object(NameKind::Cond, names, 1, words)?;
    let mutex = object(NameKind::Mutex, names, 2, words)?;
    Some(Call::Timedwait {
        cond,
        mutex,
        at: at?,
    })
}

fn mutex_call(names: &NameIndex<'_>, form: MutexCall, words: &LineWords<'_>) -> Option<Call>
    ensures { result ≡ mutex_call names.now form words.now }
{
    match form {
        MutexCall::Lock => Some(Call::Lock(object(NameKind::Mutex, names, 1, words)?)),
        MutexCall::Timedlock => timedlock(names, words, moment(2, words)),
        MutexCall::TimedlockReal => timedlock(names, words, real(2, words)),
        MutexCall::Trylock => Some(Call::Trylock(object(NameKind::Mutex, names, 1, words)?)),
        MutexCall::Unlock => Some(Call::Unlock(object(NameKind::Mutex, names, 1, words)?)),
        MutexCall::Wait => wait(names, words),
        MutexCall::Timedwait => timedwait(names, words, moment(3, words)),
        MutexCall::TimedwaitReal => timedwait(names, words, real(3, words)),
        MutexCall::Signal => Some(Call::Signal(object(NameKind::Cond, names, 1, words)?)),
        MutexCall::Broadcast => Some(Call::Broadcast(object(NameKind::Cond, names, 1, words)?)),
    }
}

fn sem_timedwait(sem: ObjId, at: Option<Moment>) -> Option<Call>
    ensures { result ≡ option_map (calls.SemTimedwait sem) at }
{
    Some(Call::SemTimedwait { sem, at: at? })
}

fn sem_call(names: &NameIndex<'_>, form: SemCall, words: &LineWords<'_>) -> Option<Call>
    ensures { result ≡ sem_call names.now form words.now }
{
    let sem = object(NameKind::Sem, names, 1, words)?;
    match form {
        SemCall::Wait => Some(Call::SemWait(sem)),
        SemCall::Timedwait => sem_timedwait(sem, moment(2, words)),
        SemCall::TimedwaitReal => sem_timedwait(sem, real(2, words)),
        SemCall::Trywait => Some(Call::SemTrywait(sem)),
        SemCall::Getvalue => Some(Call::SemGetvalue(sem)),
        SemCall::Post => Some(Call::SemPost(sem)),
    }
}

fn settime_rel(names: &NameIndex<'_>, words: &LineWords<'_>) -> Option<Call>
    ensures { result ≡ map_three calls.TimerSettimeRel (named_at kind.Timer names.now 1 words.now) (amount_at 3 words.now) (amount_at 4 words.now) }
{
    let timer = object(NameKind::Timer, names, 1, words)?;
    let first = amount(3, words)?;
    Some(Call::TimerSettimeRel(timer, first, amount(4, words)?))
}

fn settime_abs(names: &NameIndex<'_>, words: &LineWords<'_>) -> Option<Call>
    ensures { result ≡ map_three calls.TimerSettimeAbs (named_at kind.Timer names.now 1 words.now) (operand_at 3 words.now) (amount_at 4 words.now) }
{
    let timer = object(NameKind::Timer, names, 1, words)?;
    let at = operand(3, words)?;
    Some(Call::TimerSettimeAbs(timer, at, amount(4, words)?))
}

fn clock_nanosleep(at: Option<Moment>) -> Option<Call>
    ensures { result ≡ option_map calls.ClockNanosleep at }
{
    Some(Call::ClockNanosleep { at: at? })
}

fn time_call(names: &NameIndex<'_>, form: TimeCall, words: &LineWords<'_>) -> Option<Call>
    ensures { result ≡ time_call names.now form words.now }
{
    match form {
        TimeCall::Nanosleep => Some(Call::Nanosleep(amount(1, words)?)),
        TimeCall::ClockNanosleep => clock_nanosleep(moment(1, words)),
        TimeCall::ClockNanosleepReal => clock_nanosleep(real(1, words)),
        TimeCall::Gettime => Some(Call::Gettime),
        TimeCall::RealGettime => Some(Call::RealGettime),
        TimeCall::ClockSettime => Some(Call::ClockSettime(operand(1, words)?)),
        TimeCall::TimerSettimeRel => settime_rel(names, words),
        TimeCall::TimerSettimeAbs => settime_abs(names, words),
        TimeCall::TimerGettime => Some(Call::TimerGettime(object(
            NameKind::Timer,
            names,
            1,
            words,
        )?)),
        TimeCall::TimerGetoverrun => Some(Call::TimerGetoverrun(object(
            NameKind::Timer,
            names,
            1,
            words,
        )?)),
    }
}

fn tkill(names: &NameIndex<'_>, words: &LineWords<'_>) -> Option<Call>
    ensures { result ≡ map_two calls.Tkill (named_at kind.Thread names.now 1 words.now) (signal_at 2 words.now) }
{
    let thread = thread(names, 1, words)?;
    Some(Call::Tkill(thread, signal(2, words)?))
}

fn sigqueue(words: &LineWords<'_>) -> Option<Call>
    ensures { result ≡ map_two calls.Sigqueue (signal_at 1 words.now) (operand_at 2 words.now) }
{
    let sig = signal(1, words)?;
    Some(Call::Sigqueue(sig, operand(2, words)?))
}

fn sigtimedwait(words: &LineWords<'_>) -> Option<Call>
    ensures { result ≡ map_two calls.Sigtimedwait (signals_at 1 words.now) (amount_at 2 words.now) }
{
    let set = signals(1, words)?;
    Some(Call::Sigtimedwait(set, amount(2, words)?))
}

fn signal_call(names: &NameIndex<'_>, form: SignalCall, words: &LineWords<'_>) -> Option<Call>
    ensures { result ≡ signal_call names.now form words.now }
{
    match form {
        SignalCall::Kill => Some(Call::Kill(signal(1, words)?)),
        SignalCall::Tkill => tkill(names, words),
        SignalCall::Sigqueue => sigqueue(words),
        SignalCall::SigmaskBlock => Some(Call::SigmaskBlock(signals(2, words)?)),
        SignalCall::SigmaskUnblock => Some(Call::SigmaskUnblock(signals(2, words)?)),
        SignalCall::SigmaskSet => Some(Call::SigmaskSet(signals(2, words)?)),
        SignalCall::Sigwaitinfo => Some(Call::Sigwaitinfo(signals(1, words)?)),
        SignalCall::Sigtimedwait => sigtimedwait(words),
    }
}

fn send(names: &NameIndex<'_>, words: &LineWords<'_>) -> Option<Call>
    ensures { result ≡ map_four calls.MqSend (named_at kind.Queue names.now 1 words.now) (number_in 0 65536 2 words.now) (number_in 0 31 3 words.now) (operand_at 4 words.now) }
{
    let queue = object(NameKind::Queue, names, 1, words)?;
    let len = number_in(0, 65_536, 2, words)?;
    let prio = number_in(0, 31, 3, words)?;
    let value = operand(4, words)?;
    Some(Call::MqSend(queue, len as u32, prio as u8, value))
}

fn timedsend(names: &NameIndex<'_>, words: &LineWords<'_>, at: Option<Moment>) -> Option<Call>
    ensures { result ≡ map_five calls.MqTimedsend (named_at kind.Queue names.now 1 words.now) (number_in 0 65536 2 words.now) (number_in 0 31 3 words.now) (operand_at 4 words.now) at }
{
    let queue = object(NameKind::Queue, names, 1, words)?;
    let len = number_in(0, 65_536, 2, words)?;
    let prio = number_in(0, 31, 3, words)?;
    let value = operand(4, words)?;
    Some(Call::MqTimedsend {
        queue,
        len: len as u32,
        prio: prio as u8,
        value,
        at: at?,
    })
}

fn timedreceive(names: &NameIndex<'_>, words: &LineWords<'_>, at: Option<Moment>) -> Option<Call>
    ensures { result ≡ map_two calls.MqTimedreceive (named_at kind.Queue names.now 1 words.now) at }
{
    let queue = object(NameKind::Queue, names, 1, words)?;
    Some(Call::MqTimedreceive { queue, at: at? })
}

fn notify(names: &NameIndex<'_>, words: &LineWords<'_>) -> Option<Call>
    ensures { result ≡ map_three calls.MqNotify (named_at kind.Queue names.now 1 words.now) (signal_at 2 words.now) (operand_at 3 words.now) }
{
    let queue = object(NameKind::Queue, names, 1, words)?;
    let sig = signal(2, words)?;
    Some(Call::MqNotify(queue, sig, operand(3, words)?))
}

fn message_call(names: &NameIndex<'_>, form: MessageCall, words: &LineWords<'_>) -> Option<Call>
    ensures { result ≡ message_call names.now form words.now }
{
    match form {
        MessageCall::Send => send(names, words),
        MessageCall::Timedsend => timedsend(names, words, moment(5, words)),
        MessageCall::TimedsendReal => timedsend(names, words, real(5, words)),
        MessageCall::Receive => Some(Call::MqReceive(object(NameKind::Queue, names, 1, words)?)),
        MessageCall::Timedreceive => timedreceive(names, words, moment(2, words)),
        MessageCall::TimedreceiveReal => timedreceive(names, words, real(2, words)),
        MessageCall::Notify => notify(names, words),
    }
}

/// The call that a line of this form makes.
pub(crate) fn call_of(names: &NameIndex<'_>, form: CallForm, words: &LineWords<'_>) -> Option<Call>
    ensures { result ≡ call_of names.now form words.now }
{
    match form {
        CallForm::Thread(form) => thread_call(names, form, words),
        CallForm::Mutex(form) => mutex_call(names, form, words),
        CallForm::Sem(form) => sem_call(names, form, words),
        CallForm::Time(form) => time_call(names, form, words),
        CallForm::Signal(form) => signal_call(names, form, words),
        CallForm::Message(form) => message_call(names, form, words),
    }
}
