//! What a scheduler reads of the plain kernel: what a name of a core reaches, the budget and the list of a temporal capability, and the
//! number that a list gives a scheduler. None of it takes memory.
//!
//! See docs/SCHEDULER.md.
#![tactic(auto)]

mod numbers;
mod readings;

pub use numbers::number_in;
pub use readings::{budget, qualities, reach};
