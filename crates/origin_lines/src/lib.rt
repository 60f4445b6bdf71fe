//! The lines that tell where each capability came from.
//!
//! A line for each capability that a place holds, by ascending frame and index: the frame, the index and the capability, then each
//! decision of its chain with how it put, the newest first, then the index of the capability of the start. Chains are taken and written
//! one at a time.
//!
//! See docs/FORMATS.md, 'Origins'.
#![tactic(auto)]

mod lines;
mod whole;

pub use confinement::Origins;
pub use whole::push_origins;
