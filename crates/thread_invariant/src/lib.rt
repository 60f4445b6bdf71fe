//! The acts by which a core enters a component through a gate, or leaves one, keep the invariant of the step machine, and so do the stores
//! by which it then pushes the component onto the stack of its thread, or pops one.
//!
//! **Entering.** The load of the liveness number's word decides: where it shows the gate's epoch live, the component lives at that moment.
//!
//! **Leaving.** A stamp is drawn, which decides: the component below is the top, and the reference to the one that is left is released.
//!
//! **Kept words.** The call is decided, and the state has the new stack at once. The words that are still to be stored carry no mark; the
//! core keeps them, and each settles to what it will store there. So a store of one changes nothing that is said, and the core keeps it no
//! longer. No other core steps on such a word but to leave it as found.
//!
//! The lemmas stand in this crate's proofs.
//!
//! See docs/PROOF.md, 'Invoking: a call and a ret'.
#![tactic(auto)]
