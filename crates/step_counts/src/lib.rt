//! The scan before a call's act, and the counts that the act acquires, each step in its place.
//!
//! **Counts.** An act that changes the references to a frame says which counts it changes, and by how much. Each is acquired
//! before the act's first step, by a load and a compare. While a core holds a count no other core changes it or
//! freezes it, so the sum of a frame's counts, each as its holder will commit it, is at each moment the number of references.
//!
//! Each function computes one of `call_stages`, where the types and the definitions stand.
#![tactic(auto)]

mod counts;

pub use counts::{acquire_step, scan_step};
