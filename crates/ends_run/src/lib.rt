//! Endpoint calls beside the kernel: each core makes its list of calls at the kernel, and then its endpoint calls, each with a
//! look at the kernel before it.
//!
//! **Two phases.** In the first, each core makes its list in a thread of its own. In the second each makes its endpoint calls
//! in a thread of its own, where the gate lets it. Between the two no core makes a step: core 0's seat meets a note of each
//! other seat, and then each other seat one of core 0's. So each seat has then seen all lists made, and the looks of the
//! endpoint calls come after all of them.
//!
//! **No joint order.** Kernel steps are one history, sends and receives another. What a core sends and what it does at the
//! kernel are in its own order; nothing more is said of how the two histories stand to each other.
//!
//! See docs/MODEL.md, 'Endpoints', and docs/CLAIMS.md.
#![tactic(auto)]

mod whole;

pub use async_ends;
pub use core_runs;
pub use ends_runners::{EndRunner, MOST_FRAMES, SeatAuthority};
pub use whole::{EndsRan, run_ends};
