//! What holds of legal traces by their definitions alone, beside the laws of `kernel_history`: grace periods and stamps, what a call has
//! found, calls made alone.
//!
//! The lemmas stand in this crate's proofs.
//!
//! See docs/PROOF.md, 'What holds of legal traces by the definitions alone'.
#![tactic(auto)]
