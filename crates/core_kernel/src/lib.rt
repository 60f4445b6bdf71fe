//! The kernel for threads: cores that make their calls at one table of shared words, each in a thread of its own.
//!
//! **Seats.** A kernel has one seat for each core. A seat makes the calls of its core, and it alone does. It has seen a
//! trace: the steps of all cores up to some moment, with all of its own.
//!
//! **One history.** At every moment there is one trace of which each seat has seen a beginning. It is a legal history,
//! its calls keep within their bounds, and at each moment of it the words say what the state is. Each of its steps is
//! one that the step machine of a core made of the word found, the same as in the machine for given orders.
//!
//! **Calls.** A call is made of atomic steps alone. It takes no lock and no memory, waits for no other core, and tries
//! nothing a second time: where another core was in its way, it answers so.
//!
//! **Notes.** A note tells of what a seat has seen. A seat that meets it has then seen that too, so what one thread has
//! made, another knows to come before what it makes.
//!
//! See docs/PROOF.md, 'Taken steps', and the README for a program of your own.
#![tactic(auto)]

mod core_run;
mod ends;
mod gate;
mod kernel;
mod run_words;
mod seat;
mod threads;

pub use core_run::CoreRun;
pub use ends::Room;
pub use gate::{FreeGate, Gate};
pub use kernel::Kernel;
pub use seat::{CoreNote, CoreSeat, Front};
pub use threads::cross_threads;
