//! The scans for quiescence and for flushes keep the invariant of the step machine.
//!
//! A step of a scan is refused by a core that may still use what was removed, or that has not flushed it, or goes on to the next core.
//! After the last one nobody but the own core uses it.
//!
//! The lemmas stand in this crate's proofs.
//!
//! See docs/PROOF.md, 'Removal'.
#![tactic(auto)]
