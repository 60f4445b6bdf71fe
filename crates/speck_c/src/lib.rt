//! The kernel for C: a static library whose exports make machines, ports, notes and finished machines behind handles that C keeps.
//!
//! **Slots.** C keeps each machine, port and note in a slot of its own, zeroed at first, and hands its address to a call. Behind the
//! slot is a box; a port has its own share of the kernel, so two threads share a kernel through their ports alone.
//!
//! **Answers.** Each export tests what it is handed: a slot that holds nothing, or something else, is answered by 254, and arguments
//! outside the limits by 255. Neither is the number of a reply. Where memory has run out, 247 is answered, and nothing is changed.
//!
//! The header is `c/speck.h`, which has the rules that a caller in C must keep.
#![tactic(auto)]

mod asks;
mod boots;
mod calls;
mod ends;
mod handle;
mod held;
mod machines;
mod makes;
mod making;
mod notes;
mod parts;
mod reads;
mod reply;
mod slot;
mod texts;

pub use held::cross_threads;
