//! The kernel for threads as a program uses it: each core's seat goes with its share of the kernel, so that a call needs no fact about
//! which kernel a seat is of.
//!
//! **Ports.** A port makes the calls of its core, wherever it has been: in a list, behind a lock, in a message or in another thread.
//!
//! **Seats.** `Seats` boots a kernel and deals a port for each core, core 0's first. The machine is finished once all ports are back.
//!
//! See the README, 'In a program of your own', and docs/EMBEDDING.md.
#![tactic(auto)]

mod finish;
mod named;
mod port;
mod seats;
mod threads;

pub use core_kernel;
pub use core_kernel::CoreNote;
pub use finish::{FinishFault, Unfinished};
pub use named::{Names, NoteOf, PortOf, SeatsOf};
pub use port::Port;
pub use seats::Seats;
pub use threads::cross_threads;
