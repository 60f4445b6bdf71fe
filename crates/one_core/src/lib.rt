//! A machine of one core: the kernel for threads with one seat, as the machine that the scheduler runs on.
//!
//! **One trace.** The machine's calls are those of its seat's trace, which is a history of the kernel, as every seat's is. With one core no
//! call meets another, so each reply is the sequential kernel's.
//!
//! **A script and its tasks.** `run_sched` makes a script's calls and then the schedule of its tasks on such a machine. There is one
//! history for both, and the ticks of each turn are exactly those charged in it.
//!
//! See docs/SCHEDULER.md, and docs/PROOF.md, 'One core'.
#![tactic(auto)]

mod machine;
mod run;

pub use machine::OneCore;
pub use run::run_sched;
pub use sched_run;
