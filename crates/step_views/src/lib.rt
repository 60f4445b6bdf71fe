//! The words of the shared table by their names, and what a step of a core does to one.
//!
//! See docs/FORMATS.md, 'Traces'.
#![tactic(auto)]

mod names;
mod views;

pub use kernel_history::word_map;
pub use names::{WordName, name_at};
pub use views::{StepMade, StepView, left_by, place_in};
