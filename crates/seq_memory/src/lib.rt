//! The calls on memory in the plain kernel: `retype`, `map`, `unmap`, `touch`, `flush`.
//!
//! **What a step is.** `step` carries out the call alone: its reply, and the change that it makes. Entering and leaving the
//! call, the limit on calls and their count are the same for all calls, and no part of it.
//!
//! **Exact.** `step` speaks of the state that the kernel's maps stand for. The reply is that of the definitions, the first
//! cause in order; the kernel then represents the definitions' next state, which of a refused call is the state itself. That
//! a reached state which the kernel represents gives the same reply and change is a law of the definitions, for all calls at
//! once, in a crate above.
//!
//! **Ranges.** A frame has a word's range where the range that is named ends within the machine's frames, and a touched
//! page's flags have theirs where a page table maps pages alone (`IsInRange`), as in every reached state. Of any other state
//! the contract says nothing, and asks for nothing.
//!
//! See docs/MODEL.md, 'A call is a rule'.
#![tactic(auto)]

mod carrying;
mod frames;
mod one;
mod own_causes;
mod retyping;
mod touching;

pub use carrying::carry_out;
pub use one::step;
pub use own_causes::causes;
