//! The printed tables of a machine in which no core is in a call.
//!
//! The tables are printed from an image of the final words and of the ends of the cores. The references to each frame are
//! those that its count words show.
//!
//! See docs/FORMATS.md, 'Printed text'.
#![tactic(auto)]

mod counts;
mod frames;
mod objects;
mod rest;
mod whole;
mod words;

pub use machine_image;
pub use spk_nums;
pub use whole::{report, total};
pub use word_map;
