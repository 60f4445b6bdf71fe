//! Each step of an act leaves a stage that fits the machine, and fewer steps to come.
//!
//! **Fits.** What a stage names is of the machine: its frames, its cores, its entries. So the next step is at a word of the table.
//!
//! **Fewer.** The steps that are still to come of an act are a number, which each step lowers, whatever word it finds.
//!
//! **Beginning.** An act that begins fits where what its names have led to does, and has at most the steps that its call's bound leaves it.
//!
//! The lemmas stand in this crate's proofs: of all acts, of scans, and of each family of acts.
//!
//! See docs/PROOF.md, 'The invariant of the step machine'.
#![tactic(auto)]
