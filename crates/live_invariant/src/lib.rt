//! The acts that change whether a component lives keep the invariant of the step machine.
//!
//! **Killing.** The component's word says its liveness number and its epoch, which no step changes while the component is there. The load
//! of the number's word finds another core's mark, a number that does not live in that epoch, or one that does. The compare is lost to
//! another core, or marks the number: from then on it lives till the draw, which makes it dead and releases its reference, to the component
//! of this act and to no other. What is still to be stored of its word is what it stands for.
//!
//! The lemmas stand in this crate's proofs.
//!
//! See docs/PROOF.md, 'Killing'.
#![tactic(auto)]
