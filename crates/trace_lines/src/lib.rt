//! The text of a trace, written step by step: the lines of its events, and in the comment after each the steps since the line before.
//!
//! See docs/FORMATS.md, 'Traces'.
#![tactic(auto)]

mod lines;
mod steps;

pub use lines::TraceLines;
pub use steps::push_step;
