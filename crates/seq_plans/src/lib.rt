//! What the calls of the plain kernel look up, each by its plan, and how a call may be refused.
//!
//! **One look-up for all calls.** A plan says which names a call looks up, in which order, and which target. `look_up` walks it
//! to its end, also where a name leads to nothing that is wanted: what depends on that name is then not found either. What is
//! left of the call's rule is its own causes of refusal and its change, which the crates of the calls have, by family.
//!
//! **A call that is made** stops at its first refusal: `resolve` walks the plan so far, and `first_cause` tells the first of the own
//! causes that stands.
//!
//! **Two reaches.** By its own reach a core finds what it may use: what a place holds, and what was removed from it while the
//! core waits for it. By the wide reach it finds what places show, removed or not: whatever some core may still use. Where the
//! own reach finds something, the wide one finds the same.
//!
//! **Which refusals are permitted.** The call relation permits a refusal wherever its own cause stands, whatever else does.
//! `looks_may` and `one_may` judge this: the one of what is looked up, the other of a call's own causes.
//!
//! **No memory.** Nothing here takes memory, and nothing changes the kernel.
//!
//! See docs/MODEL.md, 'A call is a rule', and docs/CALLS.md for the plans.
#![tactic(auto)]

mod caching;
mod causes;
mod reaching;
mod refusals;
mod resolving;
mod telling;
mod walking;

ghost use Rattle.seq_plans.specs.Refusals.{RefusedByPlan};
ghost use Rattle.seq_plans.specs.Resolving.{ResolvedByPlan};

pub use caching::translation_of;
pub use causes::{Cause, Causes, beyond, first_cause, one_may, outside};
pub use reaching::Reach;
pub use refusals::looks_may;
pub use resolving::resolve;
pub use walking::{Looked, look_up};

/// A rule that goes by a plan is refused with the first refusal of the plan's look-ups; where none is, what comes of it is what comes
/// of what is left of it, by its own causes.
#[tactic(auto, using(crate::proofs::Resolved::resolved_by_plan))]
pub fn resolved_by_plan()
    ensures { ResolvedByPlan }
{}

/// A rule that goes by a plan may be refused exactly where one of the plan's look-ups may be, or one of the own causes that are
/// left after what was looked up.
#[tactic(auto, using(crate::proofs::ByPlan::refused_by_plan))]
pub fn refused_by_plan()
    ensures { RefusedByPlan }
{}
