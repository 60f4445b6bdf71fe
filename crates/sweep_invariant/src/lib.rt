//! The steps by which a frozen frame is made untyped keep the invariant of the step machine. How it is frozen, and who may still use it, is
//! shown in `freeze_invariant`.
//!
//! **The object.** Nothing refers to the frame, and nobody but this core uses it. So what is found of its object, word by word, stays.
//!
//! **The decision.** The draw makes the frame untyped and releases the references of its object, with grace periods that begin at the
//! stamp. In the same step the frozen counters stand for no count and no stamp, and the frame's word for that of an untyped frame, till
//! they are stored.
//!
//! The lemmas stand in this crate's proofs.
//!
//! See docs/PROOF.md, 'A retype to untyped'.
#![tactic(auto)]
