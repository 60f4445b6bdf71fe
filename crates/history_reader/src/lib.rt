//! Reads a given history: the head of a script, then a line for each mark of a call, or for a call made whole; or the first fault of
//! bytes that are no such text.
//!
//! See docs/FORMATS.md, 'Given histories'.
#![tactic(auto)]

mod draft;
mod lines;
mod reading;
mod replies;
mod values;
mod words;

pub use reading::{GivenHistory, read_history};
