//! Split worlds: nothing crosses between a set of frames and liveness numbers and the rest, not even a gate.
//!
//! **The laws.** What is split stays so, where each component that is made takes a number of its side. Of the references to a frame
//! of a world all are from that world. `running` names no core across, and `touch` answers no frame across.
//!
//! **Non-interference of decisions.** Hush the calls of all cores outside a split world, so that they do nothing but enter, return and
//! flush: the history is still one that the kernel may have, it leaves the world the same, and the cores inside are told the same.
//!
//! See docs/WORLDS.md.
#![tactic(auto)]

ghost use Rattle.split_laws.specs.Split.{SplitForGood, SplitBothWays, OthersAreSilent, FirstTellsOwn};
ghost use Rattle.split_laws.specs.Split.{RefersInside, RepliesTell, TouchesOwn};

/// In every run, a world that is split stays so, whatever any core does, where each component that is made takes a number of its core's
/// side.
#[tactic(auto, using(crate::proofs::Splitting::split_for_good))]
pub fn split_for_good()
    ensures { SplitForGood }
{}

/// Where a world is split, so is the rest.
#[tactic(auto, using(crate::proofs::Others::split_both_ways))]
pub fn split_both_ways()
    ensures { SplitBothWays }
{}

/// In every run from where a world is split, where each component that is made takes a number of its core's side and each call inside is
/// refused for its frame only where that is inside, the calls of all cores outside may be hushed: it is still a run, it leaves the world
/// the same, and the cores inside are told the same.
pub fn others_are_silent()
    ensures { OthersAreSilent }
{}

/// In every state that a run reaches and in which a world is split, the first reply in order to an open call refuses it for the frame that
/// it names by its number only where that is of its core's side.
#[tactic(auto, using(crate::proofs::InOrder::first_tells_own))]
pub fn first_tells_own()
    ensures { FirstTellsOwn }
{}

/// In every state that a run reaches and in which a world is split, all references to a frame of the world are from the world.
#[tactic(auto, using(crate::proofs::Referring::refers_inside))]
pub fn refers_inside()
    ensures { RefersInside }
{}

/// In every run, where a world is split, `running` names a core that works on the side of the core that is answered.
#[tactic(auto, using(crate::proofs::Telling::replies_tell))]
pub fn replies_tell()
    ensures { RepliesTell }
{}

/// In every run, where a world is split, a `touch` answers a frame of the side of its core.
#[tactic(auto, using(crate::proofs::Touching::touches_own))]
pub fn touches_own()
    ensures { TouchesOwn }
{}
