//! What a step must show for the cores to stand for the trace with it, and the ways of stepping, once for all calls.
//!
//! **Ways.** A load that leaves its word, on the way or deciding; a mark, taken or given back; a store of a decided call; a draw of a
//! stamp; a change of what the core has of its own; a decision after which its core keeps words; refusals.
//!
//! The lemmas stand in this crate's proofs.
//!
//! See docs/PROOF.md, 'The invariant of the step machine'.
#![tactic(auto)]
