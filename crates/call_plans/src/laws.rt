//! What is proved of plans, as laws.

ghost use Rattle.call_plans.specs.Rooted.{AreRooted};
ghost use Rattle.call_plans.specs.Laws.{LivesByPlan};
ghost use Rattle.call_plans.specs.Laws.{GoesByPlan, LeftGoesBy, OutcomeIsLeft, LeftMayRefuse, NextMayRefuse, BoundIsByPlan, LeadsMore};

/// The plan of a call asks that its component lives exactly where the call asks for life.
#[tactic(auto, using(crate::proofs::Lives::lives))]
pub fn lives_by_plan()
    ensures { LivesByPlan }
{}

/// The rule of a call goes by the call's plan.
#[tactic(auto, using(crate::proofs::CallsGoBy::calls_go))]
pub fn goes_by_plan()
    ensures { GoesByPlan }
{}

/// What is left of a rule after its first names goes by what is left of the plan.
#[tactic(auto, using(crate::proofs::AfterNames::left_goes))]
pub fn left_goes_by()
    ensures { LeftGoesBy }
{}

/// What comes out of a rule comes out of what is left of it.
#[tactic(auto, using(crate::proofs::AfterNames::outcome_left))]
pub fn outcome_is_left()
    ensures { OutcomeIsLeft }
{}

/// A refusal of what is left of a rule may be the rule's.
#[tactic(auto, using(crate::proofs::AfterNames::left_may))]
pub fn left_may_refuse()
    ensures { LeftMayRefuse }
{}

/// A refusal of the next look-up may be the rule's.
#[tactic(auto, using(crate::proofs::AfterNames::next_may))]
pub fn next_may_refuse()
    ensures { NextMayRefuse }
{}

/// One name more has led to a capability.
#[tactic(auto, using(crate::proofs::AfterNames::leads_more))]
pub fn leads_more()
    ensures { LeadsMore }
{}

/// The bound of each call is three steps for entry and exit, those by which its plan asks for life, those of its look-ups, and those of
/// its act.
#[tactic(auto, using(crate::proofs::StepsOfPlans::bound_is))]
pub fn bound_is_by_plan()
    ensures { BoundIsByPlan }
{}

/// The target of each call is in a table to whose root one of its names is to lead.
#[tactic(auto, using(crate::proofs::RootedTargets::rooted))]
pub fn are_rooted()
    ensures { AreRooted }
{}
