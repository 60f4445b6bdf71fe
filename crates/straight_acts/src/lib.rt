//! Calls made straight through that fill a place or remove what it holds: copies, removals and unmappings.
//!
//! Each asks whether the core's component lives and looks its names up as `straight_looks` does, makes its act, and returns. A count is
//! acquired before the act and committed after it. A compare that is lost, a count that another core has marked, and a place that is
//! waited for fall back to the step machine, with the act and the count as they stood before that step.
#![tactic(auto)]

mod copies;
mod counts;
mod fills;
mod removals;
mod rests;

pub use copies::copy;
pub use counts::{Acquiring, acquire};
pub use fills::{fill_counted, fill_free};
pub use removals::{remove, remove_held, unmap};
pub use rests::rest_acting_counted;
pub use straight_looks::{Went, Words, look};
