//! Which call the arrow of a reply comes from that says what is in the way: laws of every history of the machine.
//!
//! Each is the contract of a function without a body, and speaks of a page that has taken all steps before the reply's.
//!
//! See docs/FORMATS.md, 'Pictures'.
#![tactic(auto)]

ghost use Rattle.arrow_causes.specs.Causes.{BusyAreLines, WaitsAreLines};

/// Each call that is answered `busy d` has a line from core d, from a step of its call in progress, which holds the word.
#[tactic(auto, using(crate::proofs::Busy::busy_are_lines))]
pub fn busy_are_lines()
    ensures { BusyAreLines }
{}

/// Each call that is answered `quiescing d` has a line from core d, from the entry of the call in which d still is.
pub fn waits_are_lines()
    ensures { WaitsAreLines }
{}
