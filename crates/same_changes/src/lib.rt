//! Calls come to the same in states that are one for all that the machine has.
//!
//! The plain kernel's maps have no more than the machine has, and a state of the definitions has more: what is past the
//! machine's frames and cores. An open call looks at none of that in a state that a run reaches, so its reply and its change
//! are the same. So it is on a region of a machine, some of its frames, liveness numbers and cores, where the core of the call
//! reaches nothing outside of it: the plain kernel's is the whole of the machine.
//!
//! See docs/PROOF.md, 'The laws of the sequential kernel': the plain kernel.
#![tactic(auto)]

ghost use Rattle.same_changes.specs.Same.{SameChanges, SameActs, StaysInRange};
ghost use Rattle.same_changes.specs.Region.{ChangesAgree};

/// In every state that a run reaches, and in every state that is one with it for all that the machine has, an open call comes
/// to the same: one reply, and one change.
pub fn same_changes()
    ensures { SameChanges }
{}

/// In every such state, the core of an open call may make it or may not in both.
#[tactic(auto, using(crate::proofs::EveryCall::same_acts))]
pub fn same_acts()
    ensures { SameActs }
{}

/// In every such state, what an open call finds is in the range of the plain kernel's words.
pub fn stays_in_range()
    ensures { StaysInRange }
{}

/// In every state that a run reaches from which the core of an open call reaches nothing outside a region, and in every state
/// that is one with it there, the call comes to the same there.
pub fn changes_agree()
    ensures { ChangesAgree }
{}
