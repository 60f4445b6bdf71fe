//! Laws of the states that runs of the sequential kernel reach: liveness numbers, gates and threads,
//! cached translations, rights, what an open call has found, and killed components. Each is the contract of a function.
//!
//! See docs/MODEL.md, 'What is proved of these definitions', and docs/PROOF.md, 'The laws of the sequential kernel'.
#![tactic(auto)]

ghost use Rattle.state_laws.specs.Lives.{LiveNumbersFit, CompsApart, GatesFit, DeadStays, ThreadsRun};
ghost use Rattle.state_laws.specs.Cached.{TranslationsStand, TouchesCache};
ghost use Rattle.state_laws.specs.Looking.{FoundStays, ActingStays, KilledStop};
ghost use Rattle.state_laws.specs.Rights.{BothStay, CopiesPutNoMore, NoRightLacks};

/// In every state that a run reaches, the frame of a live liveness number has a component of that number and epoch.
#[tactic(auto, using(crate::proofs::Lives::live_numbers_fit))]
pub fn live_numbers_fit()
    ensures { LiveNumbersFit }
{}

/// In every state that a run reaches, no two frames have components of one liveness number and one epoch.
#[tactic(auto, using(crate::proofs::CompsApart::comps_apart))]
pub fn comps_apart()
    ensures { CompsApart }
{}

/// In every state that a run reaches, a gate that a place holds, or that a core in an open call may use, has the epoch in which
/// its component was made.
#[tactic(auto, using(crate::proofs::Gates::gates_fit))]
pub fn gates_fit()
    ensures { GatesFit }
{}

/// A dead epoch never lives again: a liveness number that is dead after an epoch lives later in higher epochs alone.
#[tactic(auto, using(crate::proofs::Lives::dead_stays))]
pub fn dead_stays()
    ensures { DeadStays }
{}

/// In every state that a run reaches, a thread runs on a core exactly where it is that core's current one.
#[tactic(auto, using(crate::proofs::Threads::threads_run))]
pub fn threads_run()
    ensures { ThreadsRun }
{}

/// In every state that a run reaches, each translation that a core has cached stands: its root is a page table's, its frame a
/// user frame, each referenced or of those whose flush by that core is still awaited; and its root entry and its page entry
/// still hold the link and the mapping, or that core has decided no flush since their removal.
#[tactic(auto, using(crate::proofs::CachedLaw::translations_stand))]
pub fn translations_stand()
    ensures { TranslationsStand }
{}

/// In every run, a `touch` that answers a frame and flags answers a user frame, and its core has cached that translation of its page from
/// then on, unless it has 64 others cached; these then stay as they are.
#[tactic(auto, using(crate::proofs::Touched::touches_cache))]
pub fn touches_cache()
    ensures { TouchesCache }
{}

/// In a run, whatever other cores do: what a core in an open call has found stays found, it still reaches and may use what it did
/// through the nodes of its look-ups, and no other core retypes such a node.
pub fn found_stays()
    ensures { FoundStays }
{}

/// In a run, a core in an open call that may act still may, whatever other cores do.
#[tactic(auto, using(crate::proofs::Looking::acting_stays))]
pub fn acting_stays()
    ensures { ActingStays }
{}

/// A component that was killed and whose core has left its call makes no further `ok` but `ret`, `flush` and `tick`.
#[tactic(auto, using(crate::proofs::Killed::killed_stop))]
pub fn killed_stop()
    ensures { KilledStop }
{}

/// A copy that is carried out puts what its first name leads to, with no right that this lacks, at the place that it fills.
pub fn copies_put_no_more()
    ensures { CopiesPutNoMore }
{}

/// Where each copy that was decided keeps both rights, each capability that a place holds or that a core may use has both.
#[tactic(auto, using(crate::proofs::BothRights::both_stay))]
pub fn both_rights_stay()
    ensures { BothStay }
{}

/// Where each copy that was decided keeps both rights, no call may be answered `no-right`: so it is in scripts of version 1.
#[tactic(auto, using(crate::proofs::BothRights::no_right_lacks))]
pub fn no_right_lacks()
    ensures { NoRightLacks }
{}
