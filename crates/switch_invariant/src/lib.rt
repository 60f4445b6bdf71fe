//! The steps of a switch keep the invariant of the step machine: the claim of the thread, the loads of the component at the top of its
//! stack, the store of the core's own thread as claimed, the draw that decides, and the stores after it.
//!
//! **A claimed thread.** From the compare on the core holds the thread's word, and it stands for the idle one. So the thread is idle till
//! the draw, whatever other cores do: the step of another core that would make it run would have to hold the word. An idle thread changes
//! in no other way, so the component at the top of its stack stays what was loaded.
//!
//! **The core's own thread.** It runs, so no other core has claimed it, and its word may be stored as claimed without a compare. It stands
//! for the running one till the draw. In the step of the draw the two words change what they stand for.
//!
//! The lemmas stand in this crate's proofs.
//!
//! See docs/PROOF.md, 'Switching'.
#![tactic(auto)]
