//! What is proved of the steps of calls, as laws about plain values.

ghost use Rattle.call_stages.specs.Laws.{DecidesOnce, UnreadyRefuses, ReadyDecides};

/// A call is decided once, and returns the reply with which it was decided.
#[tactic(auto, using(crate::proofs::Decisions::decides_once))]
pub fn decides_once()
    ensures { DecidesOnce }
{}

/// A step of a call that is not ready decides a refusal, if it decides.
#[tactic(auto, using(crate::proofs::Decisions::unready_refuses))]
pub fn unready_refuses()
    ensures { UnreadyRefuses }
{}

/// A call that is ready and not decided is decided by its next step, whatever word that finds.
#[tactic(auto, using(crate::proofs::Decisions::ready_decides))]
pub fn ready_decides()
    ensures { ReadyDecides }
{}
