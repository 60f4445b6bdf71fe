//! Lists and an order, taken as `replay` takes them, and each step told.
//!
//! See docs/FORMATS.md, 'Traces', and docs/TRACES.md.
#![tactic(auto)]

mod given;
mod writing;

pub use given::trace;
pub use told_run::lone_kernel;
