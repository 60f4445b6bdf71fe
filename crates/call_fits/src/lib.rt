//! Each step of a call leaves a core that fits the machine, within the bound of the call.
//!
//! **Look-ups.** A step of a look-up leaves one that fits, or an act that begins and fits.
//!
//! **Calls.** Each step of a call, from its entry to its exit, leaves fewer to come, and with those made they are within the call's bound.
//!
//! **Cores.** So a core in a call fits after each step, and one that has begun a call fits.
//!
//! The lemmas stand in this crate's proofs.
//!
//! See docs/PROOF.md, 'The invariant of the step machine'.
#![tactic(auto)]
