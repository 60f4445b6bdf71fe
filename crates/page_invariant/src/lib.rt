//! The acts on the translations that a core has cached keep the invariant of the step machine.
//!
//! **A flush.** The load of the clock decides: the core has no translation from then on, and no grace period waits for its flush. Its
//! flush word is stored at the next step. Between the two the word shows an earlier flush.
//!
//! **A touch.** The load of the root entry answers a translation that the core has cached, whatever it finds. Else it goes on to the leaf
//! to which the entry links, and the load of the page's entry decides: the mapping found is answered, and its translation cached. What a
//! touch has cached changes nothing that is said of words.
//!
//! The lemmas stand in this crate's proofs.
//!
//! See docs/PROOF.md, 'Translations: a touch' and 'Translations: a flush'.
#![tactic(auto)]
