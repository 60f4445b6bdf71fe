//! What the program answers in small: functions under a clause each that the top call, or a run below it, promises. Here they are right;
//! each must-fail edit makes one of them wrong, and what refuses it is that clause. The crates below take long to prove, and these
//! functions do not.
//!
//! See CONTRIBUTING.md, 'Must-fail edits'.
#![tactic(auto)]

mod commands;
mod faults;
mod machines;
mod steps;
mod texts;

pub use commands::{check, draws, explains, load, plain, sched};
pub use faults::{long, other_words, unread, write_faults};
pub use machines::{booted, name_at, next_cap, next_count, scheduled, until_ready};
pub use steps::{draw, origins, replay, trace, worlds};
pub use texts::{ends, make, sched_text};
