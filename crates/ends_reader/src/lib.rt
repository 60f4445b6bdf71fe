//! Reads a script and the endpoint calls after it: the script's lines, then a line `ends`, then for each core the lines of
//! its sends and receives; or the first fault of bytes that are no such text.
//!
//! See docs/FORMATS.md, 'Endpoint calls'.
#![tactic(auto)]

mod part;
mod reading;

pub use reading::{EndsInput, read_ends};
pub use script_reader;
