//! The steps that decide a call on two temporal capabilities, and the stores after them, keep the invariant of the step machine.
//!
//! **The second head.** The step that finds the head of the second, B, as it was read decides, by a compare or a load; where another core
//! has changed it, the call is refused. How the call has read both is shown in `pair_invariant`.
//!
//! **The move.** A transfer is decided by the compare that puts the ticks in B. From then on A's head stands for what is still to be
//! stored there.
//!
//! **The list.** A delegation is decided by the compare that marks the head of B. From then on both heads, and the words of B's list,
//! stand for what is still to be stored there; the words of the list carry no mark, but no other core steps on them under the mark.
//!
//! The lemmas stand in this crate's proofs.
//!
//! See docs/PROOF.md, 'Two temporal capabilities'.
#![tactic(auto)]
