//! Runners of endpoint calls: a core of the kernel as the authority of its calls, in a thread of its own, and what all seats have seen
//! told to each.
//!
//! **Looks.** Before each endpoint call its core looks at the capability that it names. That look is a call of the core at the kernel.
//!
//! **Meets.** Core 0's seat meets a note of each other seat, and then each other seat one of core 0's. So each has then seen one trace,
//! which begins with what each had seen.
//!
//! See docs/MODEL.md, 'Endpoints', and docs/PROOF.md, 'Endpoints'.
#![tactic(auto)]

mod authority;
mod meets;
mod parts;
mod run;
mod runner;
mod tallies;

pub use authority::{MOST_FRAMES, SeatAuthority};
pub use meets::meet_all;
pub use parts::{Parts, any_stopped, end_runners, parts_of};
pub use run::run_asks;
pub use runner::EndRunner;
pub use tallies::sent_by;
