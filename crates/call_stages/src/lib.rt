//! The life of a call, as types and as functions of plain values: its entry, its work, its decision, its stores, its exit.
//!
//! **Types.** Where a call stands between two steps (`Stage`), a call in progress (`ActiveCall`), and what a step led to (`Told`,
//! `Absorbed`).
//!
//! **Functions.** The definitions in this crate's specs say which step of a call comes next, what the word found makes of the call and of
//! its core, and what holds of a core at every moment. What is proved above of the step machine is proved of these.
//!
//! **Laws.** A call is decided once, and returns the reply with which it was decided. A call that is ready is decided by its next step, and
//! one that is not ready decides no `ok`.
//!
//! The code that computes them is of `call_steps`, whose head says the stages in words.
//!
//! See docs/FORMATS.md, 'Steps of calls', and docs/PROOF.md, 'The invariant of the step machine'.
#![tactic(auto)]

mod laws;
mod stages;

pub use act_states;
pub use laws::{decides_once, ready_decides, unready_refuses};
pub use stages::{Absorbed, ActiveCall, Stage, Told};
