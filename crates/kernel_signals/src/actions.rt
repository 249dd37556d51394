//! What each signal does.
ghost use Rattle.std.specs.Prelude.{◌≡◌, ◌<◌, length, slice_index_or, if◌then◌else◌};
ghost use Rattle.words_numbers.specs.Signals.{with_signal};
ghost use Rattle.rules_machine.specs.declared.signal.SigAction.{SigAction};
ghost use Rattle.rules_machine.specs.Declarations.{declared_action, actions_of, with_action};
ghost use Rattle.rules_machine.specs.Signals.{is_kill};
ghost use Rattle.kernel_signals.specs.Actions.{Kills};

use rules_machine::SigAction;
use std::marker::Model;
use words_numbers::{ObjId, SigSet};
use words_script::{Decl, Script};

/// The actions of the 32 signals, fixed by the script.
#[derive(Drop)]
pub struct Actions {
    items: [SigAction; 32],
    // those whose action ends the process
    kills: SigSet,
}

impl Model for Actions {
    ghost use Rattle.std.specs.Prelude.{List};
    ghost use Rattle.rules_machine.specs.declared.signal.SigAction.{SigAction};

    ghost Value = { List SigAction };

    ghost view = { λ a. a.items };

    ghost use Rattle.kernel_signals.specs.Actions.{AreActions};

    ghost invariant = { λ a. AreActions a.items a.kills };
}

fn declared_action(handler: &Option<ObjId>) -> SigAction
    ensures { result ≡ declared_action handler.now }
{
    match handler {
        None => SigAction::Ignore,
        Some(h) => SigAction::Handler(*h),
    }
}

fn is_kill(action: &SigAction) -> bool
    ensures { result ≡ is_kill action.now }
{
    match action {
        SigAction::Kill => true,
        _ => false,
    }
}

// The action that a declaration gives, where it is one of an action.
fn declare(items: &mut [SigAction; 32], decl: &Decl)
    requires { length items.old ≡ 32 }
    ensures items { items.new ≡ with_action items.old decl.now }
    ensures long { length items.new ≡ 32 }
{
    if let Decl::Action(signal, handler) = decl {
        if *signal < 32 {
            items[*signal as usize] = declared_action(handler);
        }
    }
}

// The set, with the signal where its action ends the process.
fn with_kill(kills: SigSet, signal: u8, action: &SigAction) -> SigSet
    requires { signal < 32 }
    ensures { result ≡ (if is_kill action.now then with_signal kills signal else kills) }
{
    if is_kill(action) {
        kills.insert(signal)
    } else {
        kills
    }
}

// The signals whose action ends the process.
fn kills_of(items: &[SigAction; 32]) -> SigSet
    requires { length items.now ≡ 32 }
    ensures { Kills items.now 32 result }
{
    let mut kills = SigSet::new(0);
    for signal in 0u8..32 {
        kills = with_kill(kills, signal, &items[signal as usize]);
    }
    kills
}

impl Actions {
    /// The actions that the script declares; each other signal ends the process.
    pub fn open(script: &Script) -> Actions
        ensures { result ≡ actions_of script.now }
    {
        let mut items = [SigAction::Kill; 32];
        for decl in script.decls.items() {
            declare(&mut items, decl);
        }
        let kills = kills_of(&items);
        Actions { items, kills }
    }

    /// How many signals have an action: 32.
    pub fn count(&self) -> usize
        ensures value { result ≡ length self.now }
        ensures all { result ≡ 32 }
    {
        let items = &self.items;
        items.len()
    }

    /// The action of a signal, 0 to 31.
    pub fn get(&self, signal: u8) -> SigAction
        requires { signal < 32 }
        ensures { result ≡ slice_index_or self.now signal SigAction.Kill }
    {
        self.items[signal as usize]
    }

    /// The signals whose action ends the process.
    pub fn kills(&self) -> SigSet
        ensures { Kills self.now 32 result }
    {
        self.kills
    }
}
