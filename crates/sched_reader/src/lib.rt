//! Reads a script and the tasks after it: the script's lines, then a line `sched` with the scheduler and the quantum, then a line for each
//! task; or the first fault of bytes that are no such text.
//!
//! See docs/FORMATS.md, 'Tasks'.
#![tactic(auto)]

mod draft;
mod lines;
mod reading;

pub use reading::{SchedInput, read_sched};
pub use script_reader;
