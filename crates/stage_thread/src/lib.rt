//! Asking whether a component lives, claiming a thread, and pushing and popping the components on its stack.
//!
//! See docs/FORMATS.md, 'Steps of calls'.
#![tactic(auto)]

mod alive;
mod claim;
mod stack;

pub use alive::Alive;
pub use claim::{Claim, Claimed};
pub use stack::{Pop, Push};
