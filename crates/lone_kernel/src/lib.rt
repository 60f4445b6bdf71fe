//! The machine for given orders: a vector of words, and the moves of the cores over it, one atomic step after another.
//!
//! See docs/PROOF.md, 'Given steps'.
#![tactic(auto)]

mod lone;
mod notes;
mod seats;
mod whole;
mod words;

pub use lone::{LoneKernel, Moved};
pub use seats::{Seat, Turn};
pub use step_views;
