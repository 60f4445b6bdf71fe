//! A fixed-priority scheduler for one core, over temporal capabilities.
//!
//! **A scheduler as a user of the kernel.** It makes calls of core 0, `switch`, `tick` and `replenish` alone, and keeps a plain kernel
//! beside the machine, in which it reads what names reach, budgets and lists. With one core each reply of the machine is the sequential
//! kernel's, so the two agree.
//!
//! **Exact.** The turns are those of the definitions, the machine's calls are those of the turns, and the plain kernel then represents
//! the state after them. What the definitions come to, as that the least number runs at each tick and when a task ends, is said by the
//! laws of `sched_laws`.
//!
//! **Memory.** It is taken for the tasks and the list of turns alone.
//!
//! See docs/SCHEDULER.md.
#![tactic(auto)]

mod arrivals;
mod choosing;
mod course;
mod jobs;
mod machine;
mod scheduling;
mod turning;

pub use machine::{Machine, call_both};
pub use sched_rules::{Rule, Task, Turn};
pub use scheduling::schedule;
