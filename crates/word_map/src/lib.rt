//! The places of the shared table's words.
//!
//! See docs/FORMATS.md, 'Places of the words'.
#![tactic(auto)]

mod closed;
mod layout;

pub use closed::Closed;
pub use layout::{Layout, names_are_told_apart, places_are_distinct};
pub use spk_nums;
