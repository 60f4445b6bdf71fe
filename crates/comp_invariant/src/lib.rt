//! The making of a component keeps the invariant of the step machine.
//!
//! **The number.** The word of its liveness number is loaded, is dead after an epoch or never was live, its scan is made, and a compare
//! closes it: from then on no other core takes it.
//!
//! **The object.** The words of the frame are stored while nothing is said of them. The compare of the target decides: the number lives in
//! a new epoch, the frame is a component, and the words of both are still to be stored.
//!
//! The lemmas stand in this crate's proofs.
//!
//! See docs/PROOF.md, 'Frames: mapping, typing, making'.
#![tactic(auto)]
