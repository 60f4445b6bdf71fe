//! The rule of a fixed-priority scheduler on one core: its tasks, its turns, and the schedule that they make.
//!
//! **Time from capabilities.** The scheduler has no table of priorities. Each task names a thread and a temporal capability, and the number
//! that this one's list gives the scheduler is the task's priority: the least number runs. A task without budget does not run.
//!
//! **Turns.** Core 0 gives one turn after another. A task runs for a turn of at most the quantum, its work, its budget and the time to the
//! next arrival, so whatever arrives is judged at once. A task that the kernel refuses is out for good.
//!
//! **Periods.** A task with a period has a further job each period. As it arrives, the scheduler itself gives back to the task's temporal
//! capability what the task has run since its last job (`replenish`), so that each job has the task's whole budget.
//!
//! The definitions stand in `specs/Schedule.antt`, over the sequential kernel alone. See docs/SCHEDULER.md.
#![tactic(auto)]

mod tasks;
mod turns;

pub use tasks::{Choice, Job, Ready, Renewal, Rule, Task};
pub use turns::Turn;
