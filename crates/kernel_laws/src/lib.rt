//! Laws of the sequential kernel that a reader would ask of its definitions: the cause of each refusal, sums of ticks, ranges, what
//! nodes hold. Each is the contract of a function. Worked examples of calls, which the checker computes, stand in the proofs.
//!
//! See docs/MODEL.md, 'What is proved of these definitions', and docs/PROOF.md, 'The laws of the sequential kernel'.
#![tactic(auto)]

ghost use Rattle.kernel_laws.specs.Laws.{TicksKept, RangesHold, ReferencesFew, CausesStand, LackIsRefused, SpendingSums};
ghost use Rattle.kernel_laws.specs.Laws.{BackSums, NoneGivenBack};
ghost use Rattle.kernel_laws.specs.Nodes.{NodesHoldWhatFits};

/// In every state that a run reaches, the budgets of all temporal capabilities and the ticks that all cores have spent and have not had
/// back sum to the grants.
#[tactic(auto, using(crate::proofs::TicksLaw::ticks_kept))]
pub fn ticks_kept()
    ensures { TicksKept }
{}

/// In every state that a run reaches, the numbers are in range: a thread is in 1 to 16 components; a temporal capability has 1
/// to 8 pairs in order; epochs are within their limit; the budgets of two frames, and a budget and what a core has spent and has not had
/// back, sum to less than 2^32; a core has spent and owes at most 1,000,000 ticks for each call that it has counted.
#[tactic(auto, using(crate::proofs::RangesLaw::ranges_hold))]
pub fn ranges_hold()
    ensures { RangesHold }
{}

/// In every state that a run reaches, at most 32,848 references to a frame stand in places, objects, cores and liveness numbers: so
/// they are known where they are counted modulo 2^16.
#[tactic(auto, using(crate::proofs::FewRefs::references_few))]
pub fn references_few()
    ensures { ReferencesFew }
{}

/// In every state, each reply that the relation permits has its cause. The causes are said by reply, apart from the rules of
/// calls: a cause about what a name leads to needs that name found.
#[tactic(auto, using(crate::proofs::Causes::causes_stand))]
pub fn causes_stand()
    ensures { CausesStand }
{}

/// In every state, a call whose core has calls left, and of which a name leads to a capability of a wanted kind that lacks a right
/// which the name needs, may be refused with `no-right`. So that reply may come exactly where its cause stands.
#[tactic(auto, using(crate::proofs::Lacking::lack_is_refused))]
pub fn lack_is_refused()
    ensures { LackIsRefused }
{}

/// In every state that a run reaches, nodes hold what fits them: roots of capability tables links to leaves, roots of page
/// tables links to leaves of pages, leaves no links and no pages, and leaves of pages these alone. So does what a core in an
/// open call may use of a node; and what it finds mapped is a page.
#[tactic(auto, using(crate::proofs::NodesLaw::nodes_hold_what_fits))]
pub fn nodes_hold_what_fits()
    ensures { NodesHoldWhatFits }
{}

/// In every state that a run reaches, what a core has spent and what it owes sum to the ticks of its decided `tick` calls, but for
/// those answered `calls-spent`.
#[tactic(auto, using(crate::proofs::Spending::spending_sums))]
pub fn spending_sums()
    ensures { SpendingSums }
{}

/// In every state that a run reaches, what a core has had back is the sum of its `replenish` calls that were carried out, and no more than
/// it has spent.
#[tactic(auto, using(crate::proofs::Back::back_sums))]
pub fn back_sums()
    ensures { BackSums }
{}

/// In every run in which no ticks are given back, the budgets of all temporal capabilities and the ticks that all cores have spent sum to
/// the grants.
#[tactic(auto, using(crate::proofs::TicksLaw::none_given_back))]
pub fn none_given_back()
    ensures { NoneGivenBack }
{}
