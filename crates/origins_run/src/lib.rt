//! Lists and an order, taken as `replay` takes them, and where each capability that is then held came from.
//!
//! See docs/FORMATS.md, 'Origins', and docs/ORIGINS.md.
#![tactic(auto)]

mod given;
mod tracking;

pub use given::origins;
pub use told_run;
