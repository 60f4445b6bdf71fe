//! The look-up of a place in a radix table, one atomic load at a time.
//!
//! See docs/FORMATS.md, 'Steps of calls'.
#![tactic(auto)]

mod look;

pub use look::{Found, Look};
