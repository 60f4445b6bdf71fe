//! The sequential kernel's state in lists.
//!
//! `SeqKernel` is the state of the definitions (`kernel_rules`) as plain lists by number, with the references to each frame
//! counted as they come and go. It starts as the start state; its readers and changes are exact, and take no memory.
//!
//! See docs/PROOF.md, 'The laws of the sequential kernel': the plain kernel.
#![tactic(auto)]

mod counts;
mod kernel;
mod maps;
mod parts;
mod passing;
mod setters;
mod stack;
mod start;
mod times;

pub use kernel::SeqKernel;
pub use kernel_invariant::spk_nums;
pub use parts::{
    CompFields, Core, Frame, Liveness, Object, Pending, Place, TcapFields, Thing, ThreadFields,
};
pub use stack::Stack;
