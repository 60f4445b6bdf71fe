//! The acts that fill a place, or remove what one holds, keep the invariant of the step machine.
//!
//! **Filling.** The compare is lost to another core, or the place is free, or quiescing and scanned, and takes what the call puts.
//!
//! **Removing.** The entry is closed, a stamp is drawn, which decides, and grace periods of the place and of what it held begin.
//!
//! **Vacant.** A place that is free, or quiescing and scanned for, is vacant for the call. The scans are those of `scan_invariant`.
//!
//! **Out of the range.** A make whose frame is not in its range is refused where its target was found, or scanned for.
//!
//! The lemmas stand in this crate's proofs.
//!
//! See docs/PROOF.md, 'Removal'.
#![tactic(auto)]
