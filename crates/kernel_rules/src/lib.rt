//! The sequential kernel as definitions: its state, and what each call needs, does and answers.
//!
//! The definitions stand in this crate's specs. A call is a rule: the capabilities that it names, its target, its own
//! causes of refusal in order, and what it does. The laws below are of refusals, of who waits and of the first reply in order; those of
//! capabilities and references stand in `kernel_invariant`, and further ones in `kernel_laws` and `state_laws`.
//!
//! See docs/MODEL.md, 'The sequential kernel'.
#![tactic(auto)]

ghost use Rattle.kernel_rules.specs.Laws.{FirstPermitted, RefusalKeeps, WaitersInside, WaitsWithin};

pub use spk_nums;

/// A refusal leaves the state as it was, but for the owed ticks of a `tick`, and the count of calls.
pub fn refusal_keeps()
    ensures { RefusalKeeps }
{}

/// In every state reached from the start, and for each place, frame and liveness number, the cores that wait are among
/// those that have not passed, and the cores that are unflushed among those whose flush is unknown.
#[tactic(auto, using(crate::proofs::Within::waits_within))]
pub fn waits_within()
    ensures { WaitsWithin }
{}

/// In every state reached from the start, a core that waits in a grace period is in a call.
#[tactic(auto, using(crate::proofs::AloneLaw::waits_inside))]
pub fn waiters_inside()
    ensures { WaitersInside }
{}

/// In every state reached from the start, whoever is in a call: the relation permits `ok` with a value only where the first
/// reply in order is that `ok`, and it permits the first reply in order.
#[tactic(auto, using(crate::proofs::AloneLaw::first_permitted))]
pub fn first_permitted()
    ensures { FirstPermitted }
{}
