//! Isolation in every legal trace: the authority of each step, sealed worlds, and where capabilities come from.
//!
//! `authority_laws`, `world_laws`, `origin_rules` and `origin_laws` speak of runs of the sequential kernel. Here the same is said of steps:
//! what a step of one core changes between those of all others, and what stays over any stretch of steps of all cores. Each trace that is
//! the machine's is legal, so each command and each port has these of its trace.
//!
//! See docs/WORLDS.md and docs/ORIGINS.md.
#![tactic(auto)]

ghost use Rattle.isolation_laws.specs.Authority.{StepsHaveAuthority};
ghost use Rattle.isolation_laws.specs.Origins.{StepsPutFalling, StretchesConfine, TracesHaveChains};
ghost use Rattle.isolation_laws.specs.Uses.{SparedPlacesStay, UndecidedChangeNothing, UndecidedStayOut, WorldsStayAlone};
ghost use Rattle.isolation_laws.specs.Worlds.{StepsEnterWorlds, StepsSpareWorlds, StretchesKeepWorlds};

/// In every legal trace, each part of the state that a step changes is its core itself, or its core's own by a call that is for it, or lies
/// under a capability with the right to use that one of the names of the call led the core to, which the step carries out.
#[tactic(auto, using(crate::proofs::StepAuthority::steps_have_authority))]
pub fn steps_have_authority()
    ensures { StepsHaveAuthority }
{}

/// In every legal trace, a step of a core that works outside a sealed world leaves the world alone, but for what the core runs on.
pub fn steps_spare_worlds()
    ensures { StepsSpareWorlds }
{}

/// In every legal trace, a core comes to work in a set of frames only by `call` of a gate to a component that lives, by `ret` into one
/// below on its stack, or by `switch` to a thread whose top is one.
pub fn steps_enter_worlds()
    ensures { StepsEnterWorlds }
{}

/// In every legal trace, over any stretch of steps of all cores, worlds that are sealed stay so until a core inside carries out a call, and
/// worlds that only gates join stay so for good.
#[tactic(auto, using(crate::proofs::StretchWorlds::stretches_keep_worlds))]
pub fn stretches_keep_worlds()
    ensures { StretchesKeepWorlds }
{}

/// In every legal trace, what a step puts has a parent that its call named, and a copy has no right that its parent lacks.
#[tactic(auto, using(crate::proofs::Origins::steps_put_falling))]
pub fn steps_put_falling()
    ensures { StepsPutFalling }
{}

/// After every legal trace, each capability that a place holds has its place's chain, by the decisions of the trace.
#[tactic(auto, using(crate::proofs::Origins::traces_have_chains))]
pub fn traces_have_chains()
    ensures { TracesHaveChains }
{}

/// After every stretch of steps of a legal trace, each capability that a place holds was not put there by this core in the stretch, or is
/// covered by one that the core reached at a call of its own in it, and that it had not put in it.
#[tactic(auto, using(crate::proofs::Origins::stretches_confine))]
pub fn stretches_confine()
    ensures { StretchesConfine }
{}

/// A step that has authority and decides nothing changes no part of the state but its core.
#[tactic(auto, using(crate::proofs::Uses::undecided_change_nothing))]
pub fn undecided_change_nothing()
    ensures { UndecidedChangeNothing }
{}

/// A step that spares worlds changes no place of a sealed world outside of which its core works.
#[tactic(auto, using(crate::proofs::Uses::spared_places_stay))]
pub fn spared_places_stay()
    ensures { SparedPlacesStay }
{}

/// A step that enters worlds as the law says, and decides nothing, brings its core into no set of frames.
#[tactic(auto, using(crate::proofs::Uses::undecided_stay_out))]
pub fn undecided_stay_out()
    ensures { UndecidedStayOut }
{}

/// Where worlds stay over some steps, and no core that makes one of them works inside a sealed world, it is sealed after them, and its
/// components live. Where two worlds are apart they stay so; and each keeps its ticks where no core that makes one of the steps runs
/// across.
#[tactic(auto, using(crate::proofs::Uses::worlds_stay_alone))]
pub fn worlds_stay_alone()
    ensures { WorldsStayAlone }
{}
