//! What the kernel promises: traces of atomic steps, and when a trace is a legal history of the sequential kernel.
//!
//! The definitions stand in this crate's specs. The laws below say of them what a reader would ask of them, and the refusals show
//! that each refuses something: worked traces of two cores that break one of them and keep the others.
//!
//! See docs/MODEL.md, 'Traces and legal histories', and docs/PROOF.md, 'What holds of legal traces by the definitions alone'.
#![tactic(auto)]

ghost use Rattle.kernel_history.specs.Laws.{LegalRuns, EventsDetermine, LegalUpTo, OneCallAtATime, AloneGoesOn, RacedByAnother};
ghost use Rattle.kernel_history.specs.Refusals.{DisciplineRefuses, OwnCountsRefuse, FootprintsRefuse, BoundsRefuse};
ghost use Rattle.kernel_history.specs.Refusals.{JustificationRefuses, WordsRefuse, OrderRefuses};

pub use entry_words;
pub use frame_words;
pub use kernel_rules::spk_nums;
pub use tcap_words;
pub use word_map;

/// The events of a legal trace are a run of the sequential kernel, and the trace leaves the state that they leave. So each law of
/// the sequential kernel holds after each legal trace.
#[tactic(auto, using(crate::proofs::Laws::legal_runs))]
pub fn legal_runs()
    ensures { LegalRuns }
{}

/// What a trace leaves is determined by its events: the state, and of each core whether it is between calls, or else its call,
/// and the reply where that is decided.
#[tactic(auto, using(crate::proofs::Laws::events_determine))]
pub fn events_determine()
    ensures { EventsDetermine }
{}

/// A legal trace is legal up to each of its steps.
#[tactic(auto, using(crate::proofs::Laws::legal_up_to))]
pub fn legal_up_to()
    ensures { LegalUpTo }
{}

/// In a legal trace a core is in at most one call: it has entered the calls that have returned, and one more exactly where it is
/// in a call.
#[tactic(auto, using(crate::proofs::Laws::one_call_at_a_time))]
pub fn one_call_at_a_time()
    ensures { OneCallAtATime }
{}

/// In a legal trace a call decides none of `raced`, `busy` and `quiescing` while no other core is in a call, and none has stepped
/// since it was entered.
#[tactic(auto, using(crate::proofs::Laws::alone_goes_on))]
pub fn alone_goes_on()
    ensures { AloneGoesOn }
{}

/// In a legal trace a call is answered `raced` only where another core has changed the word that it read, since it read it.
#[tactic(auto, using(crate::proofs::Races::raced_by_another))]
pub fn raced_by_another()
    ensures { RacedByAnother }
{}

/// The discipline refuses: each row of who may step on a word, and who may change it, is broken by a trace that is legal and keeps
/// its footprints and its bounds.
#[tactic(auto, using(crate::proofs::Refused::discipline_refuses))]
pub fn discipline_refuses()
    ensures { DisciplineRefuses }
{}

/// The discipline refuses a call that steps on the count word of another core, a retype to untyped that does so on that of another
/// frame, and a retype to kernel: each trace is legal and keeps its footprints and its bounds.
#[tactic(auto, using(crate::proofs::Refused::own_counts_refuse))]
pub fn own_counts_refuse()
    ensures { OwnCountsRefuse }
{}

/// The footprints refuse a legal trace that steps on an entry, a frame's word, a count or a liveness number far from its call.
#[tactic(auto, using(crate::proofs::Refused::footprints_refuse))]
pub fn footprints_refuse()
    ensures { FootprintsRefuse }
{}

/// The bounds refuse a legal trace in which a look makes a sixth step.
#[tactic(auto, using(crate::proofs::Refused::bounds_refuse))]
pub fn bounds_refuse()
    ensures { BoundsRefuse }
{}

/// A legal trace refuses decisions that the call relation permits, and that no step of their call justifies: an `ok` off its way, a
/// `busy` by a mark that is not on it, a `raced` for a word that it may not lose, and a `quiescing` for what was not removed.
#[tactic(auto, using(crate::proofs::Unjustified::justification_refuses))]
pub fn justification_refuses()
    ensures { JustificationRefuses }
{}

/// What the words say refuses legal traces that change a core's word or an entry, and not the state.
#[tactic(auto, using(crate::proofs::Refused::words_refuse))]
pub fn words_refuse()
    ensures { WordsRefuse }
{}

/// An order refuses a legal trace of its calls that goes otherwise than its item: one step, until ready, until decided, and until
/// returned.
#[tactic(auto, using(crate::proofs::Unjustified::order_refuses))]
pub fn order_refuses()
    ensures { OrderRefuses }
{}
