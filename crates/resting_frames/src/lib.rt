//! What a core's step leaves of a frame that nothing names and that the core does not use.
//!
//! A frame without a reference, for which a core does not wait, is in no capability, object or thread that a call of this core may use. So
//! the call leaves the frame and what its places hold, but where it makes the frame untyped. A retype to untyped relies on it between its
//! look at the object in a frame and its decision.
//!
//! The lemmas stand in this crate's proofs.
//!
//! See docs/PROOF.md, 'A retype to untyped'.
#![tactic(auto)]
