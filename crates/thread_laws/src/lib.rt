//! What a core in a call knows of threads still after a step of another core: a thread that no other core may retype stays a thread, and
//! one that is idle before the step and after it is as it was.
//!
//! This is said of the sequential kernel, call by call, and then of the steps of a trace. It has no code: `proofs/` is used by the
//! invariant of the step machine.
//!
//! See docs/PROOF.md, 'Switching'.
#![tactic(auto)]
