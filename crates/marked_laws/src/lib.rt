//! What a trace shows is a history: the marks of every legal trace, one after another, are a history of marks, with as many decisions
//! as the trace has.
//!
//! So whoever is given the marks of a trace alone, and none of its steps, may judge them by the sequential kernel.
//!
//! See docs/MODEL.md, 'A given history'.
#![tactic(auto)]

ghost use Rattle.marked_laws.specs.Laws.{LegalMarks};

/// The marks of a legal trace are a history with the trace's decisions, and their events are the trace's. A call answered `raced` has met
/// the core that changed the word for which it lost the race, and one answered `busy` the core whose mark it found.
#[tactic(auto, using(crate::proofs::Marks::legal_marks))]
pub fn legal_marks()
    ensures { LegalMarks }
{}
