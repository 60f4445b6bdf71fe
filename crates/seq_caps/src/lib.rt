//! The calls on capabilities in the plain kernel: `look`, `copy`, `remove`, `make` in its seven kinds, `grow`, `shrink`.
//!
//! **What a step is.** `step` carries out the call alone: its reply, and the change that it makes. Entering and leaving the
//! call, the limit on calls and their count are the same for all calls, and no part of it.
//!
//! **Exact.** `step` speaks of the state that the kernel's maps stand for. The reply is that of the definitions, the first
//! cause in order; the kernel then represents the definitions' next state, which of a refused call is the state itself. So it
//! needs to know nothing of the states that were reached: that a reached state which the kernel represents gives the same
//! reply and change is a law of the definitions, for all calls at once, in a crate above.
//!
//! **Ranges.** A `make` takes a frame of a range and an epoch of a liveness number. Both have a word's range where the range
//! ends within the machine's frames and the epochs within their limit (`IsInRange`), as in every reached state. Of any other
//! state the contract says nothing, and asks for nothing.
//!
//! See docs/MODEL.md, 'A call is a rule'.
#![tactic(auto)]

mod carrying;
mod frames;
mod one;
mod own_causes;

pub use call_plans;
pub use carrying::carry_out;
pub use one::step;
pub use own_causes::causes;
pub use seq_lookups;
pub use seq_lookups::spk_nums;
pub use seq_plans;
