//! The steps by which a retype to untyped freezes a frame and scans for it keep the invariant of the step machine.
//!
//! **The frame and its counters.** The frame's word is marked where it is that of a user or a kernel frame, and each of its counters is
//! frozen, by a compare. From then on the core holds them, and each stands for what was found there: so their sum is the number of
//! references, and their latest stamp that of the last release.
//!
//! **Who may still use it.** Where the sum is 0 nothing refers to the frame. The scans for that stamp leave no other core that waits for
//! it, and no core that is still to flush it.
//!
//! **Refusals.** What was frozen is what is still to be released, with the frame's word.
//!
//! The lemmas stand in this crate's proofs.
//!
//! See docs/PROOF.md, 'A retype to untyped'.
#![tactic(auto)]
