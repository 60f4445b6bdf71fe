//! The steps that all acts share keep the invariant of the step machine: look-ups, and the acquiring and committing of counts.
//!
//! **Looking up.** What a call knows on the way is one thing for all calls: its names so far have led to what it has found, and what its
//! plan names next is looked up. So a step of a look-up goes on to the leaf, is refused by a cause that the plan tells to be the call's
//! first, or arrives at the place that it looks for. No act of a call is looked at.
//!
//! **Acquiring.** A step of an acquiring is refused where another core holds the count, is lost to another core, or acquires it: the word's
//! settled value stays, and so does the sum of the frame's counts. A making acquires its count when its frame is marked.
//!
//! **Deciding.** At a decision each count that the call has acquired changes what it stands for to what its commit will store, and the sum
//! changes with the references of the state.
//!
//! The lemmas stand in this crate's proofs.
//!
//! See docs/PROOF.md, 'The invariant of the step machine' and 'The sum of counts'.
#![tactic(auto)]
