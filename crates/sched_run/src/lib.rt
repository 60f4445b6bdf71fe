//! The command `sched` over a machine that it boots: reads a script with tasks after it, makes the script's calls, schedules the tasks, and
//! writes the turns.
//!
//! **Any machine.** What is booted is a type parameter: a machine of one core whose replies are the sequential kernel's (`Machine` of
//! `fixed_prio`). The machine is given back with the text, so that who knows the machine knows which calls it has made.
//!
//! See docs/SCHEDULER.md.
#![tactic(auto)]

mod run;

pub use fixed_prio;
pub use run::{Boot, Scheduled, sched};
pub use sched_reader::script_reader;
