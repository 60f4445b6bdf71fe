//! The lines that tell the answers of endpoint calls, and what was sent, taken and left at each frame.
//!
//! See docs/FORMATS.md, 'Endpoint calls'.
#![tactic(auto)]

mod counts;
mod done;

pub use counts::push_end_lines;
pub use done::push_done_lines;
