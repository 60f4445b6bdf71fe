//! What `trace` prints is a given history, and it is found legal.
//!
//! **Read back.** The text of a trace says its setup and its marks, one a line, in order: the steps stand in comments, which have no
//! words. So it is read where the trace's calls, replies and cores are in the ranges in which they are read, and the lines are few.
//!
//! **Found legal.** The marks of a legal trace are a history, and its replies and cores are in those ranges. So what `check` finds of
//! such a text is `legal` and the number of the trace's decisions, and it can find nothing else.
//!
//! See docs/TRACES.md, 'The marks alone', and docs/MODEL.md, 'A given history'.
#![tactic(auto)]

ghost use Rattle.trace_reads.specs.Laws.{MarksRead, TracesAreLegal};

/// The text of each trace whose steps are in range is read as the trace's setup and its marks, each at its line.
#[tactic(auto, using(crate::proofs::Laws::marks_read))]
pub fn marks_read()
    ensures { MarksRead }
{}

/// The text of each legal trace whose calls are in range has the verdict `legal` with the trace's decisions, and no other.
#[tactic(auto)]
pub fn traces_are_legal()
    ensures { TracesAreLegal }
{}
