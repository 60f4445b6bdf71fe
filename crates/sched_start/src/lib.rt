//! Where a schedule begins: after a script without `tick` core 0 owes nothing, so the ticks of each turn are exactly those charged.
//!
//! See docs/SCHEDULER.md, 'What is proved'.
#![tactic(auto)]

ghost use Rattle.sched_start.specs.Owing.{OwesNothing, TakesNoTick};

/// Core 0 owes nothing after calls that it makes alone from the start, of which none is a `tick`.
pub fn owes_nothing()
    ensures { OwesNothing }
{}

/// A script that is read with tasks after it has no `tick`.
pub fn takes_no_tick()
    ensures { TakesNoTick }
{}
