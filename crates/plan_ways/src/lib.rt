//! The ways of a call by its plan: what its names and target lead through, where some of its names have been found.
//!
//! See docs/MODEL.md, 'Ways', and docs/PROOF.md, 'The invariant of the step machine'.
#![tactic(auto)]

ghost use Rattle.plan_ways.specs.Laws.{NextOnWay, TargetIsNext, AskedIsLeft, NextIsFirst, AllWays, FoundAreNamed, FoundAreInFootprint};

/// The way of the next look-up is on the wide ways of the rule.
#[tactic(auto, using(crate::proofs::Ways::next_on_way))]
pub fn next_on_way()
    ensures { NextOnWay }
{}

/// After all names the target of a rule is that of its plan.
#[tactic(auto, using(crate::proofs::Ways::target_is))]
pub fn target_is_next()
    ensures { TargetIsNext }
{}

/// What a rule asks for is what is left of it asks for.
#[tactic(auto, using(crate::proofs::Ways::asked_left))]
pub fn asked_is_left()
    ensures { AskedIsLeft }
{}

/// Where the next look-up is refused, so is the call, and with that refusal.
#[tactic(auto, using(crate::proofs::Ways::next_first))]
pub fn next_is_first()
    ensures { NextIsFirst }
{}

/// A call whose names lead and whose target is reached has gone all its ways, if it has gone those of each.
#[tactic(auto, using(crate::proofs::Ways::all_ways))]
pub fn all_ways()
    ensures { AllWays }
{}

/// A frame to which a name has led is one of those to which the names of the rule lead.
#[tactic(auto, using(crate::proofs::InFootprint::named_footprint))]
pub fn found_are_named()
    ensures { FoundAreNamed }
{}

/// A frame to which a name of a call has led is in the call's footprint: its word and its counts.
#[tactic(auto, using(crate::proofs::InFootprint::found_footprint))]
pub fn found_are_footprint()
    ensures { FoundAreInFootprint }
{}
