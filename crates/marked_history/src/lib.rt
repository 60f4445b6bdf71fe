//! Histories of marks: who enters a call, which reply decides it, and who returns.
//!
//! **Judged by the sequential kernel.** The marks of all cores stand in one order. Each core's go enter, decide, return, over and over;
//! its last call may be open. A call is decided only with a reply that the call relation permits in the state that the marks before
//! leave.
//!
//! **Against whom.** `raced` stands only where another core was in a call at some moment since this call was entered, and `busy d` only
//! where d is another core and in a call.
//!
//! The definitions stand in `specs/Histories.antt` and `specs/Verdicts.antt`. See docs/MODEL.md, 'A given history'.
#![tactic(auto)]

ghost use Rattle.marked_history.specs.Laws.{HistoriesRun, OneVerdict};

mod marks;

pub use marks::{Line, Mark, Said, Verdict, Why};

/// The events of a history are a run of the sequential kernel. So each law of the sequential kernel holds of every history.
#[tactic(auto, using(crate::proofs::Running::histories_run))]
pub fn histories_run()
    ensures { HistoriesRun }
{}

/// Lines have one verdict at most.
#[tactic(auto, using(crate::proofs::Verdicts::one_verdict))]
pub fn one_verdict()
    ensures { OneVerdict }
{}
