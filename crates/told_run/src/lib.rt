//! Lists and an order, taken as `replay` takes them, with each step told to a watcher.
//!
//! **One driver.** The machine for given orders is moved by single steps: first by the items of the order, one after another, then
//! each core to its list's end. Each step that is made is told, once and in order. What a watcher makes of the steps is its own
//! affair: it says what it has seen of a trace, and that one step more keeps this so.
//!
//! See docs/ARCHITECTURE.md.
#![tactic(auto)]

mod given;
mod moves;
mod orders;
mod watcher;

pub use given::watch;
pub use lone_kernel;
pub use lone_kernel::step_views::StepMade;
pub use watcher::Watcher;
