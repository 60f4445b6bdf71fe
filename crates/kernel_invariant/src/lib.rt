//! What every state keeps that a run of the sequential kernel reaches.
//!
//! **Soundness.** Each capability that a place holds, or that a core in a call may use, names a frame with an object of its kind.
//!
//! **References.** A call changes the references to a frame by those that it takes less those that it releases.
//!
//! What a core in a call has found stays usable by it: see `found_stays`. The definitions are those of `kernel_rules`; the lemmas stand in
//! this crate's proofs.
//!
//! See docs/MODEL.md, 'The sequential kernel'.
#![tactic(auto)]

ghost use Rattle.kernel_rules.specs.Laws.{CapabilitiesFit, RefsChange};

pub use kernel_rules::spk_nums;

/// In every state that a run reaches, a call that is carried out changes the references to each frame by those that it takes
/// less those that it releases; each release begins the frame's grace period.
#[tactic(auto, using(crate::proofs::RefsLaw::refs_change))]
pub fn refs_change()
    ensures { RefsChange }
{}

/// In every state that a run reaches, each capability that a place holds, and each that a core in an open call may use, names a
/// frame with an object of its kind; a range ends within the machine's frames.
#[tactic(auto, using(crate::proofs::SoundRuns::capabilities_fit))]
pub fn capabilities_fit()
    ensures { CapabilitiesFit }
{}
