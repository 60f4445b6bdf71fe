//! The act that charges ticks keeps the invariant of the step machine.
//!
//! **A tick.** The load of the head finds another core's mark, or the head as it is; the compare is lost to another core, or takes the
//! ticks that are due from the budget, as far as it has them. A lost tick changes the state too: its ticks are owed. So each way in
//! which a tick is decided changes what its core has of its own.
//!
//! The lemmas stand in this crate's proofs.
//!
//! See docs/PROOF.md, 'Time: a tick'.
#![tactic(auto)]
