//! The law of a strict server: in every window of one period its thread runs at most its initial budget at high priority.
//!
//! Proved: `window_law`: in whatever way a strict server's thread becomes the head and blocks, no window of one period has more
//! ticks at the high priority than the initial budget. `facts_law`: at each instant capacity, pending and consumed add up to the
//! budget, and what is pending is due one behind the other, within one period.
#![tactic(auto)]

ghost use Rattle.laws_strict_server.specs.Instants.{WindowLaw};
ghost use Rattle.laws_strict_server.specs.Facts.{FactsLaw};

/// In whatever way a strict server's thread becomes the head and blocks, no window of one period has more ticks at the high
/// priority than the initial budget.
pub fn window_law()
    ensures { WindowLaw }
{}

/// At each instant its budget adds up, its pending replenishments are due one after another, none is overdue, and an open run is one
/// of consecutive ticks.
pub fn facts_law()
    ensures { FactsLaw }
{}
