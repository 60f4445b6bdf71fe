//! What is proved of refusals, as a law about plain values.

ghost use Rattle.act_states.specs.Laws.{RefusalsAreReplies};

/// A refusal and the reply that says it are one, and no refusal says `ok`.
#[tactic(auto, using(crate::proofs::Refusing::refusals_are))]
pub fn refusals_are_replies()
    ensures { RefusalsAreReplies }
{}
