//! What a core in a call may use stays usable by it, whatever another core decides.
//!
//! A capability that the core has found stays at its place, or becomes quiescing there with this core among those for whom it waits; the
//! frame that it names stays what it is, since a reference stands or a grace period waits for the core. And where the core may act it still
//! may: a component that another core kills waits for it, and its liveness number is taken by nobody before.
//!
//! The lemmas stand in this crate's proofs.
//!
//! See docs/MODEL.md, 'The sequential kernel'.
#![tactic(auto)]
