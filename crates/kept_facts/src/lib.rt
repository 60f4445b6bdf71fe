//! What holds still after a step that leaves what it rests on.
//!
//! **What a call knows** where it stands: each kind of knowledge once, over the few things that a step keeps; of frozen counters, that
//! nobody else uses the frame while a core holds them all.
//!
//! **What the words say**: words of every kind at once; steps that are calm, which change no frame and no liveness number; threads that a
//! core has claimed; sums of counts, where one count changes and where none does.
//!
//! **Who keeps a word without a mark**: the words of a current thread are its core's; those of a list are the core's whose mark the head
//! carries. What a call on two temporal capabilities knows of them is so after a step of another core.
//!
//! The lemmas stand in this crate's proofs.
//!
//! See docs/PROOF.md, 'The invariant of the step machine'.
#![tactic(auto)]
