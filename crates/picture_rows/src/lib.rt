//! The heights of the steps of a page: each step lies below the one before it, by rules that look back only.
//!
//! **Due.** A core's next event stands so far below its last one that their marks and texts have room. So one number a core is enough: the
//! least height of its next event.
//!
//! See docs/FORMATS.md, 'Pictures'.
#![tactic(auto)]

mod rows;

pub use rows::{Placed, Rows};
