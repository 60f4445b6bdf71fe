//! Split worlds in every legal trace.
//!
//! `split_laws` speaks of runs of the sequential kernel. Here the same is said of stretches of steps of all cores: each trace that is the
//! machine's is legal, so each command and each port has these of its trace.
//!
//! See docs/WORLDS.md.
#![tactic(auto)]

ghost use Rattle.split_traces.specs.Traces.{StretchesStaySplit, StretchesAreSilent};

/// In every legal trace, what is split stays so over any stretch of steps of all cores, where each component that is made takes a number
/// of its core's side.
#[tactic(auto, using(crate::proofs::Stretches::stretches_stay_split))]
pub fn stretches_stay_split()
    ensures { StretchesStaySplit }
{}

/// In every legal trace, over any stretch of steps from where a world is split, where each component that is made takes a number of its
/// core's side and each call inside is refused for its frame only where that is inside: answer each call of the cores outside as if it had
/// lost a race, and its events are a run still, leave the world the same, and tell the cores inside the same.
pub fn stretches_are_silent()
    ensures { StretchesAreSilent }
{}
