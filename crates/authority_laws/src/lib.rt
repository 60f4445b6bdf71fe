//! The authority of one decision: which parts of the state a decided call may change, and by which capability.
//!
//! **The law.** Each part of the state that a decision of a core changes is the core's own, or lies under a capability to which one of the
//! numbers led it that the call names and would use, and which has the right to use. What a capability gives to change is one table of
//! kinds, which names no call.
//!
//! See docs/WORLDS.md.
#![tactic(auto)]

ghost use Rattle.authority_laws.specs.Authority.{CallsChangeTheirOwn, DecisionsHaveAuthority};
ghost use Rattle.authority_laws.specs.Graces.{GracesHaveCause};

/// In every run, each part of the state that a decision changes is its core's own, or lies under a capability to which one of the numbers
/// that the call names led that core, and that has the right to use.
#[tactic(auto, using(crate::proofs::DecidedParts::decisions_have_authority))]
pub fn decisions_have_authority()
    ensures { DecisionsHaveAuthority }
{}

/// In every run, what is its core's own a decision changes by the calls that are for it alone: the stack of the core's thread by `call`
/// and `ret`, where the thread runs by `switch`, the budget of its temporal capability by `tick`.
#[tactic(auto, using(crate::proofs::DecidedParts::calls_change_their_own))]
pub fn calls_change_their_own()
    ensures { CallsChangeTheirOwn }
{}

/// In every run, the grace period of a place begins only where a capability that it held is removed, that of a liveness number where it was
/// live and is dead, and that of a frame where some part of the state has lost a reference to it.
#[tactic(auto, using(crate::proofs::Causes::graces_have_cause))]
pub fn graces_have_cause()
    ensures { GracesHaveCause }
{}
