//! The acts that change what a frame is keep the invariant of the step machine.
//!
//! **Typing.** The load of the frame's word finds another core's mark, a frame that is not untyped, or one that is; the compare is lost
//! to another core, or the frame is untyped still and becomes what the call says. No reference and no place changes, and no word of the
//! frame says anything before or after.
//!
//! **Making an object.** The load of the frame's word finds another core's mark, a frame that is not blank, or one that is; the compare is
//! lost to another core, or marks the frame. Each store of a word of the object leaves what is said, since nothing is said of the words of
//! a blank frame. The compare of the target is lost to another core, or the frame becomes the object, and the target takes its capability.
//! What is still to be stored of the frame's word is what it stands for. A component is made in `comp_invariant`.
//!
//! The lemmas stand in this crate's proofs.
//!
//! See docs/PROOF.md, 'Frames: mapping, typing, making'.
#![tactic(auto)]
