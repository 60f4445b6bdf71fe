//! Lists of calls at the kernel for threads: each core makes its list, in a thread of its own where one can be made.
//!
//! **Runners.** A runner is a core's seat with the calls that it is to make. Before each call it asks the gate, and at the first
//! false it is held, and makes no more.
//!
//! **Whole lists.** A kernel is booted, its runners make their lists, and it is closed: there is one history that has all lists'
//! calls once and in order.
//!
//! See docs/PROOF.md, 'Taken steps'.
#![tactic(auto)]

mod run;
mod runner;
mod threads;
mod whole;

pub use core_kernel;
pub use core_kernel::{FreeGate, Gate};
pub use run::run_cores;
pub use runner::Runner;
pub use threads::cross_threads;
pub use whole::{Ran, any_held, decisions_of, run_whole, runners_of, seats_of};
