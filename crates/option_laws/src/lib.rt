//! A law of what is told of an illegal history: no reply that may stand there is left out.
//!
//! See docs/FORMATS.md, 'Explanations'.
#![tactic(auto)]

ghost use Rattle.option_laws.specs.Every.{EveryReplyIsTried};

/// A law: after a history, each reply that may decide a call which is open there is one of those that are tried of it. So a line with a
/// reply that is not told of may not stand there.
#[tactic(auto, using(crate::proofs::Every::every_reply))]
pub fn every_reply_is_tried()
    ensures { EveryReplyIsTried }
{}
