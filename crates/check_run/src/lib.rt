//! The command `check`: reads a given history, judges it by the sequential kernel, and writes the verdict.
//!
//! **Faults first.** The whole input is read before anything is judged; so a fault of its last line comes before a verdict on its first.
//!
//! See docs/FORMATS.md, 'Given histories'.
#![tactic(auto)]

mod run;

pub use history_check;
pub use history_reader;
pub use run::{check, verdict_text};
