//! Each step of a call after its entry keeps the invariant of the step machine.
//!
//! A look-up goes by the call's plan, and what comes next begins: the next look-up, a scan, the first count, or the act. A look
//! answers where its name is found. Each further step of the work is one of a look-up, a scan, an acquiring or an act, whose lemmas
//! stand below; so are the stores after the decision. What is left are the load of the clock and the store of the core's word.
//!
//! The lemmas stand in this crate's proofs; `stage_good` is the one that the step machine cites.
//!
//! See docs/PROOF.md, 'The invariant of the step machine'.
#![tactic(auto)]
