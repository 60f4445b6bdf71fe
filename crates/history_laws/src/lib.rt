//! The laws of a history, each a definition of its own, and what each refuses.
//!
//! A history of a machine is a trace of which all these hold (`IsHistory` of `flight_laws`, which proves them). Here they stand below the
//! machine and its proofs. The refusals show that each says something. Of a law that asks more than a legal trace it is a trace of two
//! cores that is legal, in the footprints of its calls, within their bounds and disciplined, and breaks the law. Of one that follows from
//! a legal trace it is a trace, or a state, that no legal trace is or leaves.
//!
//! See docs/CLAIMS.md, 'The laws of a history'.
#![tactic(auto)]

ghost use Rattle.history_laws.specs.Refusals.{CallsRefuse, FramesRefuse, CountsRefuse, ObjectsRefuse, TimeRefuses};

/// The laws of when calls are decided, of places found and of cores scanned refuse a look that is ready and decides nothing, one that is
/// carried out and was not ready, a place read that is not held, and a core's word that shows it out while it is in a call.
#[tactic(auto, using(crate::proofs::Calls::calls_refuse))]
pub fn calls_refuse()
    ensures { CallsRefuse }
{}

/// The laws of frames refuse a node that is made untyped under a call which has read it, a frame that is made untyped while another core
/// holds a count of it, and one to which there is a reference.
#[tactic(auto, using(crate::proofs::Frames::frames_refuse))]
pub fn frames_refuse()
    ensures { FramesRefuse }
{}

/// The laws of counts refuse count words that do not sum to the references, with what calls have still to store; stamps that no grace
/// period has; and counts that are frozen by another call than a retype to untyped, or with another sum.
#[tactic(auto, using(crate::proofs::Counts::counts_refuse))]
pub fn counts_refuse()
    ensures { CountsRefuse }
{}

/// The laws of translations, components, gates and threads refuse a cached translation of a frame that is untyped, or one that is gone; a
/// touch that answers such a frame; a killed component that lives, is entered, or goes on; and threads that run on two cores, or are shown
/// idle while they run.
#[tactic(auto, using(crate::proofs::Objects::objects_refuse))]
pub fn objects_refuse()
    ensures { ObjectsRefuse }
{}

/// The laws of time refuse budgets that do not sum to the grants, ticks that are not counted, ticks that come back and were not spent,
/// heads and lists that show another budget or quality, heads of a transfer and of a delegation that show what is still to be stored, and
/// a test that answers something else.
#[tactic(auto, using(crate::proofs::Time::time_refuses))]
pub fn time_refuses()
    ensures { TimeRefuses }
{}
