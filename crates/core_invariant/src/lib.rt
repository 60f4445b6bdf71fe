//! The invariant of the step machine: when the cores of a machine stand for a trace.
//!
//! The definitions stand in this crate's specs: what cores hold of the words, what the words say, and what a call knows where it stands, at
//! its act too. Its proofs have small lemmas on what is held. How steps keep the invariant is shown in the crates above.
//!
//! See docs/PROOF.md, 'The invariant of the step machine'.
#![tactic(auto)]
