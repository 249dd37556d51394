//! The table of patterns: one line for each.
ghost use Rattle.std.specs.Prelude.{◌≡◌, ◌++◌, map};
ghost use Rattle.script_table.specs.Patterns.{row_of, rows_of};
ghost use Rattle.script_table.specs.Table.{declaration_patterns, step_patterns, call_patterns, strict_declarations, strict_calls, patterns};

use crate::{
    ActionForm, Bar, BlockForm, BodyForm, CallForm, CloseForm, Form, MessageCall, MutexCall,
    NameKind, ObjectForm, Pattern, Place, SemCall, SignalCall, StepForm, Table, ThreadCall,
    TimeCall, Version,
};
use words_numbers::GREATEST_NUMBER;

// A place: a keyword, a priority P, a number N, an operand V, an answer R, signals, a name that is new or of a kind, a range.
macro_rules! place {
    ($keyword:literal) => { Place::Keyword($keyword) };
    (P) => { Place::Number { low: 1, high: 255 } };
    (N) => { Place::Number { low: 0, high: GREATEST_NUMBER } };
    (V) => { Place::Operand };
    (R) => { Place::Answer };
    (SIG) => { Place::Signal };
    (ACT) => { Place::Acts };
    (SET) => { Place::Signals };
    ((new $kind:ident)) => { Place::Declares(NameKind::$kind) };
    ((of $kind:ident)) => { Place::Uses(NameKind::$kind) };
    ((in $low:expr, $high:expr)) => { Place::Number { low: $low, high: $high } };
}

macro_rules! pattern {
    ($form:expr, $bar:ident => $keyword:literal $($place:tt)*) => {
        Pattern { form: $form, bar: Bar::$bar, keyword: $keyword, places: &[$(place!($place)),*] }
    };
}

// Those of strict servers stand last: version 1 does not have them.
static DECLARATIONS: [Pattern; 25] = [
    pattern!(Form::Quantum, Nowhere => b"quantum" (in 1, GREATEST_NUMBER)),
    pattern!(Form::Body(BodyForm::FifoAt), Nowhere => b"thread" (new Thread) b"fifo" P b"at" N),
    pattern!(Form::Body(BodyForm::FifoDormant), Nowhere => b"thread" (new Thread) b"fifo" P b"dormant"),
    pattern!(Form::Body(BodyForm::RrAt), Nowhere => b"thread" (new Thread) b"rr" P b"at" N),
    pattern!(Form::Body(BodyForm::RrDormant), Nowhere => b"thread" (new Thread) b"rr" P b"dormant"),
    pattern!(Form::Body(BodyForm::SporadicAt), Nowhere => b"thread" (new Thread) b"sporadic" P P N N N b"at" N),
    pattern!(Form::Body(BodyForm::SporadicDormant), Nowhere => b"thread" (new Thread) b"sporadic" P P N N N b"dormant"),
    pattern!(Form::Body(BodyForm::Handler), Nowhere => b"handler" (new Handler)),
    pattern!(Form::Body(BodyForm::Cleanup), Nowhere => b"cleanup" (new Cleanup)),
    pattern!(Form::Object(ObjectForm::MutexNone), Nowhere => b"mutex" (new Mutex) b"none"),
    pattern!(Form::Object(ObjectForm::MutexNoneRecursive), Nowhere => b"mutex" (new Mutex) b"none" b"recursive"),
    pattern!(Form::Object(ObjectForm::MutexInherit), Nowhere => b"mutex" (new Mutex) b"inherit"),
    pattern!(Form::Object(ObjectForm::MutexInheritRecursive), Nowhere => b"mutex" (new Mutex) b"inherit" b"recursive"),
    pattern!(Form::Object(ObjectForm::MutexProtect), Nowhere => b"mutex" (new Mutex) b"protect" P),
    pattern!(Form::Object(ObjectForm::MutexProtectRecursive), Nowhere => b"mutex" (new Mutex) b"protect" P b"recursive"),
    pattern!(Form::Object(ObjectForm::Cond), Nowhere => b"cond" (new Cond)),
    pattern!(Form::Object(ObjectForm::Sem), Nowhere => b"sem" (new Sem) (in 0, 32_767)),
    pattern!(Form::Object(ObjectForm::Queue), Nowhere => b"queue" (new Queue) (in 1, 64) (in 1, 65_536)),
    pattern!(Form::Object(ObjectForm::QueueNonblock), Nowhere => b"queue" (new Queue) (in 1, 64) (in 1, 65_536) b"nonblock"),
    pattern!(Form::Object(ObjectForm::Timer), Nowhere => b"timer" (new Timer) SIG N),
    pattern!(Form::Object(ObjectForm::TimerReal), Nowhere => b"timer" (new Timer) SIG N b"real"),
    pattern!(Form::Action(ActionForm::Ignore), Nowhere => b"action" ACT b"ignore"),
    pattern!(Form::Action(ActionForm::Run), Nowhere => b"action" ACT b"run" (of Handler)),
    pattern!(Form::Body(BodyForm::StrictAt), Nowhere => b"thread" (new Thread) b"strict" P P N N N b"at" N),
    pattern!(Form::Body(BodyForm::StrictDormant), Nowhere => b"thread" (new Thread) b"strict" P P N N N b"dormant"),
];

static STEPS: [Pattern; 12] = [
    pattern!(Form::Step(StepForm::Run), Nowhere => b"run" (in 1, GREATEST_NUMBER)),
    pattern!(Form::Step(StepForm::Set), Nowhere => b"set" N),
    pattern!(Form::Step(StepForm::Add), Nowhere => b"add" N),
    pattern!(Form::Step(StepForm::Take), Nowhere => b"take"),
    pattern!(Form::Block(BlockForm::If), Nowhere => b"if" R),
    pattern!(Form::Block(BlockForm::Unless), Nowhere => b"unless" R),
    pattern!(Form::Block(BlockForm::Loop), Nowhere => b"loop" (in 1, GREATEST_NUMBER)),
    pattern!(Form::Block(BlockForm::Forever), Nowhere => b"forever"),
    pattern!(Form::Block(BlockForm::Push), HandlersAndCleanups => b"push" (of Cleanup)),
    pattern!(Form::Close(CloseForm::End), Nowhere => b"end"),
    pattern!(Form::Close(CloseForm::Pop), Nowhere => b"pop" b"0"),
    pattern!(Form::Close(CloseForm::PopRun), Nowhere => b"pop" b"1"),
];

// As above.
static CALLS: [Pattern; 54] = [
    pattern!(Form::Call(CallForm::Thread(ThreadCall::Yield)), Nowhere => b"yield"),
    pattern!(Form::Call(CallForm::Thread(ThreadCall::Create)), Nowhere => b"create" (of Thread)),
    pattern!(Form::Call(CallForm::Thread(ThreadCall::Join)), HandlersAndCleanups => b"join" (of Thread)),
    pattern!(Form::Call(CallForm::Thread(ThreadCall::Cancel)), Nowhere => b"cancel" (of Thread)),
    pattern!(Form::Call(CallForm::Thread(ThreadCall::Testcancel)), HandlersAndCleanups => b"testcancel"),
    pattern!(Form::Call(CallForm::Thread(ThreadCall::SetcancelEnable)), Nowhere => b"setcancel" b"enable"),
    pattern!(Form::Call(CallForm::Thread(ThreadCall::SetcancelDisable)), Nowhere => b"setcancel" b"disable"),
    pattern!(Form::Call(CallForm::Thread(ThreadCall::Exit)), HandlersAndCleanups => b"exit" V),
    pattern!(Form::Call(CallForm::Thread(ThreadCall::Setprio)), Nowhere => b"setprio" (of Thread) P),
    pattern!(Form::Call(CallForm::Thread(ThreadCall::SetschedFifo)), Nowhere => b"setsched" (of Thread) b"fifo" P),
    pattern!(Form::Call(CallForm::Thread(ThreadCall::SetschedRr)), Nowhere => b"setsched" (of Thread) b"rr" P),
    pattern!(Form::Call(CallForm::Thread(ThreadCall::SetschedSporadic)), Nowhere => b"setsched" (of Thread) b"sporadic" P P N N N),
    pattern!(Form::Call(CallForm::Mutex(MutexCall::Lock)), HandlersAndCleanups => b"lock" (of Mutex)),
    pattern!(Form::Call(CallForm::Mutex(MutexCall::Timedlock)), HandlersAndCleanups => b"timedlock" (of Mutex) V),
    pattern!(Form::Call(CallForm::Mutex(MutexCall::TimedlockReal)), HandlersAndCleanups => b"timedlock" (of Mutex) V b"real"),
    pattern!(Form::Call(CallForm::Mutex(MutexCall::Trylock)), Nowhere => b"trylock" (of Mutex)),
    pattern!(Form::Call(CallForm::Mutex(MutexCall::Unlock)), Nowhere => b"unlock" (of Mutex)),
    pattern!(Form::Call(CallForm::Mutex(MutexCall::Wait)), HandlersAndCleanups => b"wait" (of Cond) (of Mutex)),
    pattern!(Form::Call(CallForm::Mutex(MutexCall::Timedwait)), HandlersAndCleanups => b"timedwait" (of Cond) (of Mutex) V),
    pattern!(Form::Call(CallForm::Mutex(MutexCall::TimedwaitReal)), HandlersAndCleanups => b"timedwait" (of Cond) (of Mutex) V b"real"),
    pattern!(Form::Call(CallForm::Mutex(MutexCall::Signal)), Nowhere => b"signal" (of Cond)),
    pattern!(Form::Call(CallForm::Mutex(MutexCall::Broadcast)), Nowhere => b"broadcast" (of Cond)),
    pattern!(Form::Call(CallForm::Sem(SemCall::Wait)), HandlersAndCleanups => b"sem_wait" (of Sem)),
    pattern!(Form::Call(CallForm::Sem(SemCall::Timedwait)), HandlersAndCleanups => b"sem_timedwait" (of Sem) V),
    pattern!(Form::Call(CallForm::Sem(SemCall::TimedwaitReal)), HandlersAndCleanups => b"sem_timedwait" (of Sem) V b"real"),
    pattern!(Form::Call(CallForm::Sem(SemCall::Trywait)), Nowhere => b"sem_trywait" (of Sem)),
    pattern!(Form::Call(CallForm::Sem(SemCall::Getvalue)), Nowhere => b"sem_getvalue" (of Sem)),
    pattern!(Form::Call(CallForm::Sem(SemCall::Post)), Nowhere => b"sem_post" (of Sem)),
    pattern!(Form::Call(CallForm::Time(TimeCall::Nanosleep)), HandlersAndCleanups => b"nanosleep" N),
    pattern!(Form::Call(CallForm::Time(TimeCall::ClockNanosleep)), HandlersAndCleanups => b"clock_nanosleep" V),
    pattern!(Form::Call(CallForm::Time(TimeCall::ClockNanosleepReal)), HandlersAndCleanups => b"clock_nanosleep" V b"real"),
    pattern!(Form::Call(CallForm::Time(TimeCall::Gettime)), Nowhere => b"gettime"),
    pattern!(Form::Call(CallForm::Time(TimeCall::RealGettime)), Nowhere => b"real_gettime"),
    pattern!(Form::Call(CallForm::Time(TimeCall::ClockSettime)), Nowhere => b"clock_settime" V),
    pattern!(Form::Call(CallForm::Time(TimeCall::TimerSettimeRel)), Nowhere => b"timer_settime" (of Timer) b"rel" N N),
    pattern!(Form::Call(CallForm::Time(TimeCall::TimerSettimeAbs)), Nowhere => b"timer_settime" (of Timer) b"abs" V N),
    pattern!(Form::Call(CallForm::Time(TimeCall::TimerGettime)), Nowhere => b"timer_gettime" (of Timer)),
    pattern!(Form::Call(CallForm::Time(TimeCall::TimerGetoverrun)), Nowhere => b"timer_getoverrun" (of Timer)),
    pattern!(Form::Call(CallForm::Signal(SignalCall::Kill)), Nowhere => b"kill" SIG),
    pattern!(Form::Call(CallForm::Signal(SignalCall::Tkill)), Nowhere => b"tkill" (of Thread) SIG),
    pattern!(Form::Call(CallForm::Signal(SignalCall::Sigqueue)), Nowhere => b"sigqueue" SIG V),
    pattern!(Form::Call(CallForm::Signal(SignalCall::SigmaskBlock)), Handlers => b"sigmask" b"block" SET),
    pattern!(Form::Call(CallForm::Signal(SignalCall::SigmaskUnblock)), Handlers => b"sigmask" b"unblock" SET),
    pattern!(Form::Call(CallForm::Signal(SignalCall::SigmaskSet)), Handlers => b"sigmask" b"set" SET),
    pattern!(Form::Call(CallForm::Signal(SignalCall::Sigwaitinfo)), HandlersAndCleanups => b"sigwaitinfo" SET),
    pattern!(Form::Call(CallForm::Signal(SignalCall::Sigtimedwait)), HandlersAndCleanups => b"sigtimedwait" SET N),
    pattern!(Form::Call(CallForm::Message(MessageCall::Send)), HandlersAndCleanups => b"mq_send" (of Queue) (in 0, 65_536) (in 0, 31) V),
    pattern!(Form::Call(CallForm::Message(MessageCall::Timedsend)), HandlersAndCleanups => b"mq_timedsend" (of Queue) (in 0, 65_536) (in 0, 31) V V),
    pattern!(Form::Call(CallForm::Message(MessageCall::TimedsendReal)), HandlersAndCleanups => b"mq_timedsend" (of Queue) (in 0, 65_536) (in 0, 31) V V b"real"),
    pattern!(Form::Call(CallForm::Message(MessageCall::Receive)), HandlersAndCleanups => b"mq_receive" (of Queue)),
    pattern!(Form::Call(CallForm::Message(MessageCall::Timedreceive)), HandlersAndCleanups => b"mq_timedreceive" (of Queue) V),
    pattern!(Form::Call(CallForm::Message(MessageCall::TimedreceiveReal)), HandlersAndCleanups => b"mq_timedreceive" (of Queue) V b"real"),
    pattern!(Form::Call(CallForm::Message(MessageCall::Notify)), Nowhere => b"mq_notify" (of Queue) SIG V),
    pattern!(Form::Call(CallForm::Thread(ThreadCall::SetschedStrict)), Nowhere => b"setsched" (of Thread) b"strict" P P N N N),
];

#[tactic(auto, unfolding(crate::specs::Table::declaration_patterns, crate::specs::Table::strict_declarations))]
fn all_declarations() -> &'static [Pattern]
    ensures { map row_of result.now ≡ declaration_patterns ++ strict_declarations }
{
    &DECLARATIONS
}

fn declarations() -> &'static [Pattern]
    ensures { map row_of result.now ≡ declaration_patterns }
{
    &all_declarations()[..23]
}

#[tactic(auto, unfolding(crate::specs::Table::step_patterns))]
fn steps() -> &'static [Pattern]
    ensures { map row_of result.now ≡ step_patterns }
{
    &STEPS
}

#[tactic(auto, unfolding(crate::specs::Table::call_patterns, crate::specs::Table::strict_calls))]
fn all_calls() -> &'static [Pattern]
    ensures { map row_of result.now ≡ call_patterns ++ strict_calls }
{
    &CALLS
}

fn calls() -> &'static [Pattern]
    ensures { map row_of result.now ≡ call_patterns }
{
    &all_calls()[..53]
}

/// The patterns of a version of the language, in the order of the definition.
#[tactic(auto, unfolding(crate::specs::Table::patterns))]
pub fn patterns(version: Version) -> Table
    ensures { rows_of result ≡ patterns version }
{
    match version {
        Version::One => Table {
            declarations: declarations(),
            steps: steps(),
            calls: calls(),
        },
        Version::Two => Table {
            declarations: all_declarations(),
            steps: steps(),
            calls: all_calls(),
        },
    }
}
