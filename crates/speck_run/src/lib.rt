//! The top call of the program: its words, its input, the script, and the text that is written.
//!
//! See docs/CLAIMS.md, 'The claims', and docs/PROOF.md, 'From the bytes read to the bytes written'.
#![tactic(auto)]

mod answers;
mod apart;
mod closed;
mod ends;
mod explains;
mod given;
mod inputs;
mod orders;
mod runs;
mod summary;
mod text;
mod top;
mod words;

pub use apart::worlds;
pub use draw_run;
pub use ends::make_ends;
pub use ends_run::core_runs::{FreeGate, Gate};
pub use explains::explains_commands;
pub use given::replay;
pub use one_core;
pub use origins_run;
pub use runs::run_lists;
pub use summary::{Summed, sum_up};
pub use top::{Status, speck};
pub use trace_run;
pub use words::Command;
