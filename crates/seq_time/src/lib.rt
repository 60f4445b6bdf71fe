//! The calls of invocation and of time, in the plain kernel: gates, killing, calling and returning, switching threads,
//! charging ticks, moving budgets, and testing preemption.
//!
//! **Exact.** A call is answered what the definitions answer in the state that the kernel has, the first refusal in order or
//! its value, and the kernel then represents the state that they leave. A refused call leaves the kernel as it was.
//!
//! **Ranges.** A sum of ticks that has no word stops at the last word that there is. In a reached state no sum comes so far.
//!
//! See docs/MODEL.md, 'A call is a rule'.
#![tactic(auto)]

mod budgets;
mod changing;
mod invocation;
mod one;
mod own_causes;
mod switching;
mod ticks;

pub use changing::carry_out;
pub use one::step;
pub use own_causes::causes;
