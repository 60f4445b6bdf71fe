//! What holds of all chains.

ghost use Rattle.origin_rules.specs.Derived.{ChainsAreReal, RightsOnlyFall};

/// After every run, each capability that a place holds has its place's chain: each link is a decision of the run that put it, in the order
/// of the run, and named its parent, which then had the rest of the chain; and the last parent is the capability of the start at the
/// chain's index.
#[tactic(auto, using(crate::proofs::EachChain::chains_are_real))]
pub fn chains_are_real()
    ensures { ChainsAreReal }
{}

/// A copy has its parent's kind, frame and number, and no right that its parent lacks; what is made, and a gate, have a parent that has
/// the right to use it.
#[tactic(auto, using(crate::proofs::Falling::rights_only_fall))]
pub fn rights_only_fall()
    ensures { RightsOnlyFall }
{}
