//! Lists and an order, taken as `replay` takes them, and the picture of a page of the trace that this makes.
//!
//! See docs/FORMATS.md, 'Pictures'.
#![tactic(auto)]

mod drawing;
mod given;

pub use given::draw;
