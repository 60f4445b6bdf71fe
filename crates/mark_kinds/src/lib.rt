//! Which calls change how the words of frames are read for marks.
#![tactic(auto)]

ghost use Rattle.mark_kinds.specs.Reads.{KindsStay, NodesStay};

/// A call that changes no frames leaves the words of all frames read for marks as before.
#[tactic(auto, using(crate::proofs::Alike::kinds_stay))]
pub fn kinds_stay()
    ensures { KindsStay }
{}

/// A call that changes places leaves the words of a node so, but at a place of which nothing is removed.
pub fn nodes_stay()
    ensures { NodesStay }
{}
